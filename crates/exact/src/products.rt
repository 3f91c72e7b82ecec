// The sizes of products, and how they compare.
ghost use Rattle.std.specs.Prelude.{◌≤◌};

use std::cmp::Ordering;

// The number w · 2^e.
#[derive(Clone, Copy)]
pub(crate) struct Product {
    pub(crate) w: u128,
    pub(crate) e: usize,
    ghost range: { e ≤ 4090 },
}

impl Product {
    ghost use Rattle.std.specs.Prelude.{◌≡◌};
    ghost use Rattle.exact.specs.Exact.{ordered};
    ghost use Rattle.exact.specs.Inner.{Lead, product_size};

    // How many zeros stand above the leading bit of w: 128 for 0.
    #[tactic(auto, using(crate::proofs::Leading::lead_of))]
    fn lead(self) -> u32
        ensures { Lead self.w result }
    {
        self.w.leading_zeros()
    }

    // By the places of the leading bits, and where those are the same, by the digits, each number
    // moved up until its leading bit is at the top. No `Ord`: one size has many `w` and `e`, so `==` would have to be written too, for this one use.
    #[tactic(auto, using(crate::proofs::Leading::without_lead, crate::proofs::Leading::by_place, crate::proofs::Leading::by_digits))]
    pub(crate) fn compare(self, other: Product) -> Ordering
        ensures { result ≡ ordered (product_size self) (product_size other) }
    {
        let i = self.lead();
        let j = other.lead();
        if i == 128 || j == 128 {
            return j.cmp(&i);
        }
        let s = self.e + j as usize;
        let t = other.e + i as usize;
        if s != t {
            return s.cmp(&t);
        }
        (self.w << i).cmp(&(other.w << j))
    }
}
