// Closed f64 boxes of nodes, edges and points, and whether two of them meet. They are functions, not methods of `Bounds`: the struct stands in rules, for its
// definitions, where there is no code, and a trait for one type is no plainer.
#![tactic(auto)]

ghost use Rattle.std.specs.Prelude.{◌≡◌, []};
ghost use Rattle.rules.specs.SpatialIndex.{smaller, stretched, box_of, edge_box, boxes_meet};
ghost use Rattle.spatial_index.specs.Candidates.{point_box};

use plane::{Point, larger, point_at};
use rules::Bounds;

// Not `f64::min`: where x is no number the box keeps it, and `min` gives y.
fn smaller(x: f64, y: f64) -> f64
    ensures { result ≡ smaller x y }
{
    if y < x { y } else { x }
}

fn stretched(b: Bounds, p: Point) -> Bounds
    ensures { result ≡ stretched b p }
{
    let left = smaller(b.left, p.x);
    let low = smaller(b.low, p.y);
    let right = larger(b.right, p.x);
    let high = larger(b.high, p.y);
    Bounds {
        left,
        low,
        right,
        high,
    }
}

// The box of no node: any point stretches it to the point itself.
fn empty() -> Bounds
    ensures { result ≡ box_of [] [] }
{
    Bounds {
        left: f64::INFINITY,
        low: f64::INFINITY,
        right: f64::NEG_INFINITY,
        high: f64::NEG_INFINITY,
    }
}

// The box of some nodes.
pub fn bounds2(coords: &[f64], nodes: &[u32]) -> Bounds
    ensures { result ≡ box_of coords.now nodes.now }
{
    nodes
        .iter()
        .fold(empty(), |b, v| stretched(b, point_at(coords, *v)))
}

// The box of an edge.
pub fn edge_bounds(coords: &[f64], a: u32, b: u32) -> Bounds
    ensures { result ≡ edge_box coords.now (a, b) }
{
    bounds2(coords, &[a, b])
}

// The box of a point: it meets the boxes that hold the point.
pub fn point_bounds(p: Point) -> Bounds
    ensures { result ≡ point_box p }
{
    Bounds {
        left: p.x,
        low: p.y,
        right: p.x,
        high: p.y,
    }
}

// Closed boxes meet where they only touch.
#[tactic(auto, unfolding(rules::specs::SpatialIndex::boxes_meet))]
pub fn bounds_meet(a: Bounds, b: Bounds) -> bool
    ensures { result ≡ boxes_meet a b }
{
    (a.left <= b.right) & (b.left <= a.right) & (a.low <= b.high) & (b.low <= a.high)
}
