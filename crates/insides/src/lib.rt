// Whether a point lies inside a polygon (document 01, module 2), by the corner or the edge of its ring that is closest.
#![tactic(auto)]

ghost use Rattle.std.specs.Prelude.{◌≡◌};
ghost use Rattle.corners.specs.Ring.{of_ring};
ghost use Rattle.insides.specs.Inside.{ortho_dist2, settle, nearest, orient2d2, left_of, reflex, at_corner, contains_stable, inside};

use corners::{Ring, after, previous};
use plane::Point;
use std::cmp::Ordering;

// The parameter of a projection, and the squared distance from it.
#[derive(Clone, Copy)]
pub struct Reached {
    pub t: f64,
    pub d: f64,
}

// A place on a polygon: a corner, or the edge from a corner, between its ends.
#[derive(Clone, Copy)]
pub enum Place {
    Corner(usize),
    Edge(usize),
}

// The place closest to a point so far, and the squared distance.
#[derive(Clone, Copy)]
pub struct Near {
    pub d: f64,
    pub place: Place,
}

#[tactic(auto, unfolding(crate::specs::Inside::orient2d2))]
fn orient2d2(a: Point, b: Point, c: Point) -> Ordering
    ensures { result ≡ orient2d2 a b c }
{
    let fa = exact::is_finite(a.x) & exact::is_finite(a.y);
    let fb = exact::is_finite(b.x) & exact::is_finite(b.y);
    let fc = exact::is_finite(c.x) & exact::is_finite(c.y);
    if fa & fb & fc {
        return exact::orient2d(a, b, c);
    }
    Ordering::Equal
}

#[tactic(auto, unfolding(crate::specs::Inside::ortho_dist2, crate::specs::Inside::clamped))]
fn ortho_dist2(p: Point, a: Point, b: Point) -> Reached
    ensures { result ≡ ortho_dist2 p a b }
{
    let ab = b - a;
    let t = (ab.dot(p - a) / ab.dot(ab)).clamp(0.0, 1.0);
    let v = a.along(t, ab) - p;
    Reached { t, d: v.dot(v) }
}

#[tactic(auto, unfolding(crate::specs::Inside::settle))]
fn settle(n: usize, i: usize, r: Reached, b: Near) -> Near
    ensures { result ≡ settle n i r b }
{
    if r.d < b.d {
        let place = if r.t == 0.0 {
            Place::Corner(i)
        } else if r.t == 1.0 {
            Place::Corner(after(n, i))
        } else {
            Place::Edge(i)
        };
        return Near { d: r.d, place };
    }
    b
}

#[tactic(auto, using(corners::proofs::Steps::length_edges))]
fn nearest(ring: Ring, p: Point) -> Near
    ensures { result ≡ of_ring nearest ring.entry p }
{
    let n = ring.len();
    // No Option: an infinite distance is not closer than none either, and where none is closer, corner 0 is the answer (document 01).
    let none = Near {
        d: f64::INFINITY,
        place: Place::Corner(0),
    };
    ring.edges().enumerate().fold(none, |b, (i, (u, v))| settle(n, i, ortho_dist2(p, u, v), b))
}

#[tactic(auto, unfolding(crate::specs::Inside::left_of))]
fn left_of(ring: Ring, i: usize, j: usize, p: Point) -> bool
    ensures { result ≡ of_ring left_of ring.entry i j p }
{
    let a = ring.corner(i);
    let b = ring.corner(j);
    // The rim is outside.
    orient2d2(a, b, p).is_gt()
}

#[tactic(auto, unfolding(crate::specs::Inside::reflex))]
fn reflex(ring: Ring, i: usize, j: usize, k: usize) -> bool
    ensures { result ≡ of_ring reflex ring.entry i j k }
{
    let a = ring.corner(i);
    let b = ring.corner(j);
    let c = ring.corner(k);
    orient2d2(a, b, c).is_lt()
}

#[tactic(auto, unfolding(crate::specs::Inside::at_corner))]
fn at_corner(ring: Ring, i: usize, p: Point) -> bool
    ensures { result ≡ of_ring at_corner ring.entry i p }
{
    let n = ring.len();
    let h = previous(n, i);
    let j = after(n, i);
    let first = left_of(ring, h, i, p);
    let second = left_of(ring, i, j, p);
    if reflex(ring, h, i, j) {
        return first | second;
    }
    first & second
}

// The corners go counter-clockwise.
#[tactic(auto, unfolding(crate::specs::Inside::contains_stable))]
pub fn contains_stable(ring: Ring, p: Point) -> bool
    ensures { result ≡ of_ring contains_stable ring.entry p }
{
    let n = ring.len();
    if n < 3 {
        return false;
    }
    match nearest(ring, p).place {
        Place::Corner(i) => at_corner(ring, i, p),
        Place::Edge(i) => left_of(ring, i, after(n, i), p),
    }
}

// Whether the point lies inside the polygon, its corners going either way round.
#[tactic(auto, unfolding(crate::specs::Inside::inside))]
pub fn inside(ring: Ring, p: Point) -> bool
    ensures { result ≡ of_ring inside ring.entry p }
{
    contains_stable(ring.into_ccw2(), p)
}
