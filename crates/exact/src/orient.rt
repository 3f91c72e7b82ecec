// On which side of the line through two points a third one lies.
ghost use Rattle.std.specs.Prelude.{◌≡◌, ◌≤◌};
ghost use Rattle.exact.specs.Exact.{coord, sign_number, signum};
ghost use Rattle.exact.specs.Angle.{det, orientation};
ghost use Rattle.exact.specs.InnerNear.{Holds, HoldsBoth};

use crate::near::orient_near;
use crate::parts::Parts;
use crate::rows::orient_far;
use crate::vectors::Vector;
use plane::Point;
use std::cmp::Ordering;

// The least and the greatest exponent of some numbers that are not zero. Of no numbers it is 2045 and 0, no Option: min and max widen that as any other.
#[derive(Clone, Copy)]
pub(crate) struct Window {
    pub(crate) base: usize,
    pub(crate) top: usize,
}

impl Window {
    fn widened(self, p: Parts) -> Window
        ensures { (Holds result p) × (result.base ≤ self.base) × (self.top ≤ result.top) }
    {
        if p.is_zero() {
            return self;
        }
        Window {
            base: p.e.min(self.base),
            top: p.e.max(self.top),
        }
    }

    fn of(a: Vector, b: Vector, c: Vector) -> Window
        ensures { (HoldsBoth result a) × (HoldsBoth result b) × (HoldsBoth result c) × (result.base ≤ 2045) }
    {
        let none = Window { base: 2045, top: 0 };
        none.widened(a.x)
            .widened(a.y)
            .widened(b.x)
            .widened(b.y)
            .widened(c.x)
            .widened(c.y)
    }
}

// The sign of (a.x−c.x)(b.y−c.y) − (a.y−c.y)(b.x−c.x): greater than 0 where c lies to the left of
// the line from a to b.
#[tactic(auto, using(crate::proofs::Nearby::close_both, crate::proofs::Terms::to_orientation))]
pub fn orient2d(a: Point, b: Point, c: Point) -> Ordering
    ensures value { result ≡ orientation a.x a.y b.x b.y c.x c.y }
    ensures number { sign_number result ≡ signum (det (coord a.x) (coord a.y) (coord b.x) (coord b.y) (coord c.x) (coord c.y)) }
{
    let a = Vector::of(a);
    let b = Vector::of(b);
    let c = Vector::of(c);
    let w = Window::of(a, b, c);
    if w.top <= w.base + 9 {
        orient_near(a, b, c, w.base)
    } else {
        orient_far(a, b, c)
    }
}
