// The sign of v.x · w.y − v.y · w.x.
ghost use Rattle.std.specs.Prelude.{◌≡◌};
ghost use Rattle.exact.specs.Exact.{sign};
ghost use Rattle.exact.specs.Inner.{cross_of};

use crate::vectors::Vector;
use std::cmp::Ordering;

// Inlined, as a call would pass the vectors through memory.
#[inline(always)]
#[tactic(auto, using(crate::proofs::SignLaws::cross_steps))]
pub(crate) fn cross_sign(v: Vector, w: Vector) -> Ordering
    ensures { result ≡ sign (cross_of v w) }
{
    let s = v.x.neg != w.y.neg;
    let t = v.y.neg != w.x.neg;
    if s == t {
        let p = v.x.times(w.y);
        let q = v.y.times(w.x);
        return if s { q.compare(p) } else { p.compare(q) };
    }
    // `&`: with `&&` each end's proof has two cases
    if v.x.vanishes(w.y) & v.y.vanishes(w.x) {
        return Ordering::Equal;
    }
    if s { Ordering::Less } else { Ordering::Greater }
}
