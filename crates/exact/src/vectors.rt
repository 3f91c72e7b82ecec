// Points and directions by their exact coordinates.
ghost use Rattle.std.specs.Prelude.{◌≡◌};
ghost use Rattle.exact.specs.Exact.{coord};
ghost use Rattle.exact.specs.Inner.{signed_size};

use crate::floats::take_apart;
use crate::parts::Parts;
use plane::Point;

#[derive(Clone, Copy)]
pub(crate) struct Vector {
    pub(crate) x: Parts,
    pub(crate) y: Parts,
}

impl Vector {
    // No `From`, as `take_apart` is none: what is not finite counts as 0.
    pub(crate) fn of(p: Point) -> Vector
        ensures x { signed_size result.x ≡ coord p.x }
        ensures y { signed_size result.y ≡ coord p.y }
    {
        Vector {
            x: take_apart(p.x),
            y: take_apart(p.y),
        }
    }
}
