// The geometry layer for C and Rust programs: numbers in the place of structs and enums, points written into lent lists.
#![tactic(auto)]

ghost use Rattle.std.specs.Prelude.{◌≡◌, List, Float};
ghost use Rattle.exact.specs.Angle.{orientation, angles};
ghost use Rattle.segments.specs.Meet.{meeting};
ghost use Rattle.corners.specs.Corners.{oriented, turned};
ghost use Rattle.insides.specs.Inside.{contains_stable};
ghost use Rattle.polygons.specs.Interior.{strict_interior_point};
ghost use Rattle.geometry_c.specs.Numbers.{side_number, meet_number, meet_point, inner_number, inner_point, point_of, segment_from};

use corners::Ring;
use plane::Point;
use segments::{Meeting, Segment};
use std::cmp::Ordering;

fn point_of(x: f64, y: f64) -> Point
    ensures { result ≡ point_of x y }
{
    Point { x, y }
}

// 0 below, 1 zero, 2 above. No From: both types are std's.
fn side_number(o: Ordering) -> u8
    ensures { result ≡ side_number o }
{
    (o as i8 + 1) as u8
}

#[unsafe(no_mangle)]
pub extern "C" fn geometry_orient2d(ax: f64, ay: f64, bx: f64, by: f64, cx: f64, cy: f64) -> u8
    ensures { result ≡ side_number (orientation ax ay bx by cx cy) }
{
    side_number(exact::orient2d(point_of(ax, ay), point_of(bx, by), point_of(cx, cy)))
}

#[unsafe(no_mangle)]
pub extern "C" fn geometry_angles(x: f64, y: f64, u: f64, v: f64) -> u8
    ensures { result ≡ side_number (angles x y u v) }
{
    side_number(exact::compare_angles(point_of(x, y), point_of(u, v)))
}

// A point, where there is one, is put into the first two places, where there are two.
#[tactic(auto, unfolding(crate::specs::Numbers::new_point))]
fn put(point: Option<Point>, places: &mut [f64])
    ensures { places.new ≡ inner_point point places.old }
{
    if let Some(p) = point
        && places.len() > 1
    {
        places[0] = p.x;
        places[1] = p.y;
    }
}

// The point of a meeting at a new one.
fn new_point(m: Meeting) -> Option<Point>
    ensures { (l : List Float) → inner_point result l ≡ meet_point m l }
{
    match m {
        Meeting::New(x, y) => Some(point_of(x, y)),
        _ => None,
    }
}

#[tactic(auto, unfolding(crate::specs::Numbers::segment_from))]
fn segment_of(x: f64, y: f64, u: f64, v: f64) -> Segment
    ensures { result ≡ segment_from x y u v }
{
    Segment {
        a: point_of(x, y),
        b: point_of(u, v),
    }
}

// The meeting's number; a new point goes into `point`.
#[unsafe(no_mangle)]
pub extern "C" fn geometry_meet(
    x1: f64,
    y1: f64,
    x2: f64,
    y2: f64,
    x3: f64,
    y3: f64,
    x4: f64,
    y4: f64,
    point: &mut [f64],
) -> u8
    ensures value { result ≡ meet_number (meeting (segment_from x1 y1 x2 y2) (segment_from x3 y3 x4 y4)) }
    ensures point_after { point.new ≡ meet_point (meeting (segment_from x1 y1 x2 y2) (segment_from x3 y3 x4 y4)) point.old }
{
    let m = segment_of(x1, y1, x2, y2).intersect(segment_of(x3, y3, x4, y4));
    put(new_point(m), point);
    u8::from(m)
}

fn inner_number(i: Option<Point>) -> u8
    ensures { result ≡ inner_number i }
{
    u8::from(i.is_some())
}

// 1 where there is an inner point, which goes into `point`. C hands lists over one by one.
#[unsafe(no_mangle)]
pub extern "C" fn geometry_inner(coords: &[f64], corners: &[u32], point: &mut [f64]) -> u8
    ensures value { result ≡ inner_number (strict_interior_point coords.now corners.now) }
    ensures point_after { point.new ≡ inner_point (strict_interior_point coords.now corners.now) point.old }
{
    let i = polygons::strict_interior_point(Ring::new(coords, corners));
    put(i, point);
    inner_number(i)
}

// Whether the corners go clockwise.
#[unsafe(no_mangle)]
pub extern "C" fn geometry_turned(coords: &[f64], corners: &[u32]) -> bool
    ensures { result ≡ turned coords.now corners.now }
{
    Ring::new(coords, corners).is_turned()
}

// The corners, read backwards where `back`, go counter-clockwise.
#[unsafe(no_mangle)]
pub extern "C" fn geometry_contains_stable(
    coords: &[f64],
    corners: &[u32],
    back: bool,
    x: f64,
    y: f64,
) -> bool
    ensures { result ≡ contains_stable coords.now (oriented back corners.now) (point_of x y) }
{
    let ring = Ring {
        coords,
        corners,
        back,
    };
    insides::contains_stable(ring, point_of(x, y))
}
