// Numbers by their sign, significand and exponent.
ghost use Rattle.std.specs.Prelude.{◌<◌, ◌≤◌, ◌^◌};

use crate::products::Product;

// A float as ±m · 2^e, in units of 2^-1074. The sign stands beside m, since a zero has one too.
#[derive(Clone, Copy)]
pub struct Parts {
    pub neg: bool,
    pub m: u64,
    pub e: usize,
    ghost digits: { m < 2 ^ 53 },
    ghost range: { e ≤ 2045 },
}

impl Parts {
    ghost use Rattle.std.specs.Prelude.{◌≡◌, ◌==◌, ◌*◌, neg_ℤ};
    ghost use Rattle.exact.specs.Inner.{signed_size, size, product_size};
    ghost use Rattle.exact.specs.InnerNear.{Close, Over};

    #[tactic(auto, using(crate::proofs::SignLaws::zero_size))]
    pub(crate) fn is_zero(self) -> bool
        ensures { result ≡ (size self == 0) }
    {
        self.m == 0
    }

    // Whether the product is zero.
    #[tactic(auto, using(crate::proofs::SignLaws::vanish_left, crate::proofs::SignLaws::vanish_right))]
    pub(crate) fn vanishes(self, other: Parts) -> bool
        ensures { result ≡ (size self * size other == 0) }
    {
        self.is_zero() || other.is_zero()
    }

    pub(crate) fn negated(self) -> Parts
        ensures { signed_size result ≡ neg_ℤ (signed_size self) }
    {
        Parts {
            neg: !self.neg,
            m: self.m,
            e: self.e,
        }
    }

    // The same number, counted in units of 2^base.
    #[tactic(auto, using(crate::proofs::Nearby::near_shift, crate::proofs::Scaled::over_none, crate::proofs::Scaled::word_fits, crate::proofs::Scaled::negated_fits))]
    pub(crate) fn over(self, base: usize) -> i64
        requires { Close base self }
        ensures { Over base self result }
    {
        if self.m == 0 {
            return 0;
        }
        let m = (self.m << (self.e - base)) as i64;
        if self.neg { -m } else { m }
    }

    // The size of the product.
    #[tactic(auto, using(crate::proofs::Leading::scaled_of))]
    pub(crate) fn times(self, other: Parts) -> Product
        ensures { product_size result ≡ size self * size other }
    {
        Product {
            w: self.m as u128 * other.m as u128,
            e: self.e + other.e,
        }
    }
}
