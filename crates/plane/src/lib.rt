// Points of the plane and the steps from one to another (document 01, module 1), and the point of a node in a flat list of coordinates, x then y.
// Each float operation rounds once, in the order written there.
#![tactic(auto)]

ghost use Rattle.std.specs.Prelude.{◌≡◌};
ghost use Rattle.plane.specs.Plane.{between, dot, cross, along, magnitude, larger, point_at};

use std::ops::Sub;

#[derive(Clone, Copy, Debug, PartialEq)]
pub struct Point {
    pub x: f64,
    pub y: f64,
}

impl Sub for Point {
    type Output = Point;

    ghost sub_gives = { λ q p step. step ≡ between p q };

    // The step from `start`.
    #[tactic(auto, unfolding(crate::specs::Plane::between))]
    fn sub(self, start: Point) -> Point
        ensures { result ≡ between start self }
    {
        Point {
            x: self.x - start.x,
            y: self.y - start.y,
        }
    }
}

impl Point {
    pub fn dot(self, other: Point) -> f64
        ensures { result ≡ dot self other }
    {
        self.x * other.x + self.y * other.y
    }

    pub fn cross(self, other: Point) -> f64
        ensures { result ≡ cross self other }
    {
        self.x * other.y - self.y * other.x
    }

    // t steps on from here.
    #[tactic(auto, unfolding(crate::specs::Plane::along))]
    pub fn along(self, t: f64, step: Point) -> Point
        ensures { result ≡ along self t step }
    {
        Point {
            x: self.x + t * step.x,
            y: self.y + t * step.y,
        }
    }
}

// Not `abs`, which makes +0 of −0: the definition keeps the sign of a zero.
#[tactic(auto, unfolding(crate::specs::Plane::magnitude))]
pub fn magnitude(x: f64) -> f64
    ensures { result ≡ magnitude x }
{
    if x < 0.0 { -x } else { x }
}

// Not `f64::max`, which takes the other one where one is no number.
#[tactic(auto, unfolding(crate::specs::Plane::larger))]
pub fn larger(x: f64, y: f64) -> f64
    ensures { result ≡ larger x y }
{
    if x < y { y } else { x }
}

// A coordinate without a place is no number.
#[tactic(auto, unfolding(crate::specs::Plane::point_at))]
pub fn point_at(coords: &[f64], n: u32) -> Point
    ensures { result ≡ point_at coords.now n }
{
    let i = 2 * (n as usize);
    Point {
        x: coords.get(i).copied().unwrap_or(f64::NAN),
        y: coords.get(i + 1).copied().unwrap_or(f64::NAN),
    }
}
