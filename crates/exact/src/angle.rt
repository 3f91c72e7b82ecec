// The exact order of two directions by falling angle in (−180°, 180°].
ghost use Rattle.std.specs.Prelude.{◌≡◌};
ghost use Rattle.exact.specs.Exact.{ordered, sign, sign_number};
ghost use Rattle.exact.specs.Angle.{angles, angles_number, around, around_number, part_at};
ghost use Rattle.exact.specs.Inner.{signed_size, part_number};

use crate::cross::cross_sign;
use crate::vectors::Vector;
use plane::Point;
use std::cmp::Ordering;

// The part of the plane that a direction points into, by falling angle.
#[derive(Clone, Copy, PartialEq, Eq, PartialOrd, Ord)]
pub(crate) enum Part {
    Above,
    East,
    Below,
}

impl Part {
    #[tactic(auto, using(crate::proofs::Places::part_order))]
    fn order(self, other: Part) -> Ordering
        ensures { result ≡ ordered (part_number self) (part_number other) }
    {
        self.cmp(&other)
    }
}

#[tactic(auto, using(crate::proofs::SignLaws::part_steps))]
fn part_of(v: Vector) -> Part
    ensures { part_number result ≡ part_at (sign (signed_size v.x)) (sign (signed_size v.y)) }
{
    if !v.y.is_zero() {
        return if v.y.neg { Part::Below } else { Part::Above };
    }
    if !v.x.is_zero() && v.x.neg {
        return Part::Above;
    }
    Part::East
}

// Less where the direction v stands before w. A zero direction is east.
#[tactic(auto, using(crate::proofs::SignLaws::same_part, crate::proofs::SignLaws::to_angles, crate::proofs::SignLaws::angles_number_lem))]
pub fn compare_angles(v: Point, w: Point) -> Ordering
    ensures value { result ≡ angles v.x v.y w.x w.y }
    ensures number { sign_number result ≡ angles_number v.x v.y w.x w.y }
{
    let v = Vector::of(v);
    let w = Vector::of(w);
    let turn = part_of(v).order(part_of(w));
    if turn.is_eq() { cross_sign(v, w) } else { turn }
}

// The order of the directions from p to a and from p to b, each a rounded difference.
#[tactic(auto, unfolding(plane::specs::Plane::between))]
pub fn compare_around(p: Point, a: Point, b: Point) -> Ordering
    ensures value { result ≡ around p.x p.y a.x a.y b.x b.y }
    ensures number { sign_number result ≡ around_number p.x p.y a.x a.y b.x b.y }
{
    compare_angles(a - p, b - p)
}
