// An f64 taken apart by its bits.
ghost use Rattle.std.specs.Prelude.{◌≡◌, T};
ghost use Rattle.std.specs.Float.Ieee.Scale.{finite};
ghost use Rattle.exact.specs.Exact.{take_apart, coord};
ghost use Rattle.exact.specs.Inner.{Taken, signed_size};

use crate::parts::Parts;

// Whether x is a number, and no infinity.
#[tactic(auto, using(crate::proofs::Fields::finite_is))]
pub fn is_finite(x: f64) -> bool
    ensures { result ≡ finite x }
{
    x.is_finite()
}

// The sign, the significand and the exponent of a float. No `From`: what is not finite counts as 0.
#[tactic(auto, using(crate::proofs::Fields::none_apart, crate::proofs::Fields::none_coord, crate::proofs::Fields::settled, crate::proofs::Fields::coord_of))]
pub fn take_apart(x: f64) -> Parts
    ensures value { (result.neg, result.m, result.e) ≡ take_apart x }
    ensures coord { signed_size result ≡ coord x }
{
    if is_finite(x) {
        return take_finite(x);
    }
    Parts {
        neg: false,
        m: 0,
        e: 0,
    }
}

#[tactic(auto, using(crate::proofs::Fields::finite_not_nan, crate::proofs::Fields::small_read, crate::proofs::Fields::large_read))]
fn take_finite(x: f64) -> Parts
    requires { T (finite x) }
    ensures { Taken x result.neg result.m result.e }
{
    let b = f64::to_bits(x);
    let neg = b >= 0x8000_0000_0000_0000;
    let t = b % 0x0010_0000_0000_0000;
    let f = b % 0x8000_0000_0000_0000 / 0x0010_0000_0000_0000;
    if f == 0 {
        return Parts { neg, m: t, e: 0 };
    }
    Parts {
        neg,
        m: 0x0010_0000_0000_0000 + t,
        e: (f - 1) as usize,
    }
}
