// A point strictly inside a polygon (document 01, module 2).
#![tactic(auto)]

ghost use Rattle.std.specs.Prelude.{◌≡◌, length, Some};
ghost use Rattle.std.specs.Float.Ieee.{lt};
ghost use Rattle.lists.specs.Gather.{all};
ghost use Rattle.lists.specs.Sort.{sorted};
ghost use Rattle.plane.specs.Plane.{is_number};
ghost use Rattle.corners.specs.Ring.{as_read, of_ring};
ghost use Rattle.polygons.specs.Interior.{heights, passed, widest_in, crossing_at, crossings, lowest, at_height, strict_interior_point};
ghost use Rattle.polygons.specs.Scans.{lower, closer, first_above, climb_to, taken, with_crossing};

use corners::Ring;
use plane::Point;

// How far the heights have been climbed, and the widest gap on the way with its middle. `widest` is 0 and `middle` None until a gap is above 0: an Option of both
// would be opened at each comparison.
#[derive(Clone, Copy)]
pub struct Climb {
    pub at: Option<f64>,
    pub widest: f64,
    pub middle: Option<f64>,
}

// The two lowest of some numbers, of which there may be none or one yet: three cases, no Option.
#[derive(Clone, Copy)]
pub enum Lowest {
    Empty,
    One(f64),
    Two(f64, f64),
}

fn all_numbers(ring: Ring) -> bool
    ensures { result ≡ all is_number (of_ring heights ring.entry) }
{
    ring.points().all(|p| !p.y.is_nan())
}

// The lower one of b and y, b where they are equal: `f64::min` leaves open which of 0 and −0 it gives.
fn lower(b: Option<f64>, y: f64) -> Option<f64>
    ensures { result ≡ lower b y }
{
    match b {
        Some(z) if !(y < z) => b,
        _ => Some(y),
    }
}

// The height y against the lowest one above h so far, b.
#[tactic(auto, unfolding(crate::specs::Scans::closer))]
fn closer(h: Option<f64>, b: Option<f64>, y: f64) -> Option<f64>
    ensures { result ≡ closer h b y }
{
    match h {
        Some(z) if !(z < y) => b,
        _ => lower(b, y),
    }
}

// The lowest height above h, the first of them where several are equal.
fn above(ring: Ring, h: Option<f64>) -> Option<f64>
    ensures { result ≡ first_above h (sorted lt (of_ring heights ring.entry)) }
{
    ring.points().fold(None, |b, p| closer(h, b, p.y))
}

#[tactic(auto, unfolding(crate::specs::Interior::passed))]
fn passed(c: Climb, y: f64) -> Climb
    ensures { result ≡ passed c y }
{
    let at = Some(y);
    if let Some(l) = c.at {
        let g = y - l;
        if g > c.widest {
            return Climb {
                at,
                widest: g,
                middle: Some((l + y) / 2.0),
            };
        }
    }
    Climb { at, ..c }
}

// From height to height, until none is above. The heights are not sorted first: there is no memory for a list of them (no heap), and a ring may have any length.
#[tactic(auto, using(crate::proofs::Steps::length_heights, crate::proofs::Steps::at_foot, crate::proofs::Steps::fewer_left, crate::proofs::Steps::one_up))]
fn climbs(ring: Ring) -> Climb
    ensures { result ≡ climb_to (length (as_read ring.entry)) (sorted lt (of_ring heights ring.entry)) }
{
    let mut c = Climb {
        at: None,
        widest: 0.0,
        middle: None,
    };
    while let Some(y) = above(ring, c.at) {
        c = passed(c, y);
    }
    c
}

// The middle of the widest gap.
#[tactic(auto, using(crate::proofs::Ascent::climbs_in), unfolding(crate::specs::Interior::widest_in))]
fn widest(ring: Ring) -> Option<f64>
    ensures { result ≡ of_ring widest_in ring.entry }
{
    if all_numbers(ring) {
        return climbs(ring).middle;
    }
    None
}

fn crossing_at(a: Point, b: Point, m: f64) -> f64
    ensures { result ≡ crossing_at a b m }
{
    a.x + (m - a.y) * (b.x - a.x) / (b.y - a.y)
}

#[tactic(auto, using(plane::proofs::FloatOrder::number_not_nan), unfolding(crate::specs::Scans::taken))]
fn taken(l: Lowest, x: f64) -> Option<Lowest>
    ensures { result ≡ taken l x }
{
    if x.is_nan() {
        return None;
    }
    match l {
        Lowest::Empty => Some(Lowest::One(x)),
        Lowest::One(a) if x < a => Some(Lowest::Two(x, a)),
        Lowest::One(a) => Some(Lowest::Two(a, x)),
        Lowest::Two(a, b) if x < a => Some(Lowest::Two(x, a)),
        Lowest::Two(a, b) if x < b => Some(Lowest::Two(a, x)),
        Lowest::Two(a, b) => Some(Lowest::Two(a, b)),
    }
}

// The edge from a to b, where one of its ends is below m and the other is not.
#[tactic(auto, unfolding(crate::specs::Scans::with_crossing))]
fn with_crossing(m: f64, a: Point, b: Point, l: Lowest) -> Option<Lowest>
    ensures { result ≡ with_crossing m a b l }
{
    if (a.y < m) != (b.y < m) {
        return taken(l, crossing_at(a, b, m));
    }
    Some(l)
}

// None where a crossing is no number.
fn lowest_two(ring: Ring, m: f64) -> Option<Lowest>
    ensures { result ≡ lowest (of_ring crossings ring.entry m) }
{
    ring.edges()
        .try_fold(Lowest::Empty, |l, (a, b)| with_crossing(m, a, b, l))
}

fn at_height(ring: Ring, m: f64) -> Option<Point>
    ensures { result ≡ of_ring at_height ring.entry (Some m) }
{
    let Lowest::Two(x, y) = lowest_two(ring, m)? else {
        return None;
    };
    Some(Point {
        x: (x + y) / 2.0,
        y: m,
    })
}

#[tactic(auto, unfolding(crate::specs::Interior::strict_interior_point))]
pub fn strict_interior_point(ring: Ring) -> Option<Point>
    ensures { result ≡ of_ring strict_interior_point ring.entry }
{
    if ring.len() < 3 {
        return None;
    }
    if plane::magnitude(ring.doubled()) < 1e-30 {
        return None;
    }
    at_height(ring, widest(ring)?)
}
