// Orientation where the exponents are close: every coordinate is a whole number of 2^base, of 62
// bits, so that the differences fit a word.
ghost use Rattle.std.specs.Prelude.{◌≡◌};
ghost use Rattle.exact.specs.Exact.{sign};
ghost use Rattle.exact.specs.Inner.{det_of};
ghost use Rattle.exact.specs.InnerNear.{CloseBoth};

use crate::vectors::Vector;
use std::cmp::Ordering;

// The sign of (a.x−c.x)(b.y−c.y) − (a.y−c.y)(b.x−c.x).
#[tactic(auto, using(crate::proofs::Scaled::apart_fits))]
pub(crate) fn orient_near(a: Vector, b: Vector, c: Vector, base: usize) -> Ordering
    requires { (CloseBoth base a) × (CloseBoth base b) × (CloseBoth base c) }
    ensures { result ≡ sign (det_of a b c) }
{
    let x = c.x.over(base);
    let y = c.y.over(base);
    let p = i128::from(a.x.over(base) - x) * i128::from(b.y.over(base) - y);
    let q = i128::from(a.y.over(base) - y) * i128::from(b.x.over(base) - x);
    p.cmp(&q)
}
