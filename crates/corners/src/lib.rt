// The corners of a polygon (document 01, module 2): a run of node numbers, with the coordinates a flat list, x then y; its signed area.
#![tactic(auto)]

ghost use Rattle.std.specs.Prelude.{◌≡◌, ◌<◌, length, get_or};
ghost use Rattle.std.specs.Iterator.{YieldsFirst, item_count};
ghost use Rattle.corners.specs.Corners.{corner_at, corner_after, corner_before, next_corner, doubled_sum, signed_area2, turned, into_ccw2};
ghost use Rattle.corners.specs.Ring.{as_read, of_ring, points, points_left, edges, edges_left};

use plane::{Point, point_at};

// A polygon: its corners are a run of node numbers, read from the other end where back is true. The coordinates are those of all nodes.
// The flag is no state of its own: C hands it over, and what reads the corners asks it at each. Definitions take coordinates and corners apart: `of_ring f` is what f
// says of a ring's. No model: it would be that pair, taken apart at each.
#[derive(Clone, Copy)]
pub struct Ring<'a> {
    pub coords: &'a [f64],
    pub corners: &'a [u32],
    pub back: bool,
}

impl<'a> Ring<'a> {
    // The corners as they stand.
    #[tactic(auto, unfolding(crate::specs::Corners::oriented))]
    pub fn new(coords: &'a [f64], corners: &'a [u32]) -> Ring<'a>
        ensures coords_are { result.coords.now ≡ coords.now }
        ensures corners_are { as_read result ≡ corners.now }
    {
        Ring {
            coords,
            corners,
            back: false,
        }
    }

    #[tactic(auto, using(crate::proofs::Corners::length_oriented))]
    pub fn len(self) -> usize
        ensures { result ≡ length (as_read self.entry) }
    {
        self.corners.len()
    }

    #[tactic(auto, using(crate::proofs::Corners::backward, crate::proofs::Corners::forward, crate::proofs::Corners::no_corner))]
    fn node(self, i: usize) -> u32
        ensures { result ≡ get_or (as_read self.entry) i 0 }
    {
        let n = self.corners.len();
        if i < n {
            return self.corners[if self.back { n - 1 - i } else { i }];
        }
        0
    }

    #[tactic(auto, unfolding(crate::specs::Corners::corner_at))]
    pub fn corner(self, i: usize) -> Point
        ensures { result ≡ of_ring corner_at self.entry i }
    {
        point_at(self.coords, self.node(i))
    }

    // The points of the corners in turn.
    pub fn points(self) -> Points<'a>
        ensures { points_left result ≡ points self.entry }
    {
        Points { ring: self, at: 0 }
    }

    // The edges in turn, each from a corner to the one after it.
    pub fn edges(self) -> Edges<'a>
        ensures { edges_left result ≡ edges self.entry }
    {
        Edges { ring: self, at: 0 }
    }

    // Twice the area: the sum of x·y' − x'·y over the edges.
    pub fn doubled(self) -> f64
        ensures { result ≡ of_ring doubled_sum self.entry }
    {
        self.edges()
            .fold(0.0, |sum, (a, b)| sum + (a.x * b.y - b.x * a.y))
    }

    #[tactic(auto, unfolding(crate::specs::Corners::signed_area2))]
    fn signed_area2(self) -> f64
        ensures { result ≡ of_ring signed_area2 self.entry }
    {
        self.doubled() / 2.0
    }

    // Whether the corners go clockwise.
    #[tactic(auto, unfolding(crate::specs::Corners::turned))]
    pub fn is_turned(self) -> bool
        ensures { result ≡ of_ring turned self.entry }
    {
        self.signed_area2() < 0.0
    }

    // The same polygon counter-clockwise: read from the other end where the corners go clockwise.
    #[tactic(auto, using(crate::proofs::Corners::turned_again), unfolding(crate::specs::Corners::into_ccw2))]
    pub fn into_ccw2(self) -> Ring<'a>
        ensures coords_are { result.coords.now ≡ self.entry.coords.now }
        ensures corners_are { as_read result ≡ of_ring into_ccw2 self.entry }
    {
        Ring {
            back: self.back != self.is_turned(),
            ..self
        }
    }
}

// The corner after corner i of n: one on, and from the last to the first. Every step along a ring is this one.
#[tactic(auto, using(crate::proofs::Corners::after_over), unfolding(crate::specs::Corners::corner_after))]
pub fn after(n: usize, i: usize) -> usize
    ensures { result ≡ corner_after n i }
{
    if i < n {
        let j = i + 1;
        if j < n {
            return j;
        }
        return 0;
    }
    0
}

// The corner before corner i of n; before the first comes the last.
#[tactic(auto, unfolding(crate::specs::Corners::corner_before))]
pub fn previous(n: usize, i: usize) -> usize
    ensures { result ≡ corner_before n i }
{
    if i == 0 { n.saturating_sub(1) } else { i - 1 }
}

// The node of the corner after corner i.
#[tactic(auto, using(crate::proofs::Remainders::after_inside), unfolding(crate::specs::Corners::next_corner))]
pub fn next_corner(cell: &[u32], i: usize) -> u32
    requires { i < length cell.now }
    ensures { result ≡ next_corner cell.now i }
{
    let j = after(cell.len(), i);
    cell[j]
}

// The corners of a ring that are still to come. Edges count in the same way: a counter below both would promise its own rest, which each `next` then turns into
// its items, and that is no plainer. Structs, since of a function that returns `impl Iterator` nothing is proved; `at` alone, as a `Range` would hold the ring's length
// once more, and each promise would have to say that both agree.
#[derive(Drop)]
pub struct Points<'a> {
    ring: Ring<'a>,
    at: usize,
}

impl<'a> Iterator for Points<'a> {
    type Item = Point;

    ghost next_gives = { YieldsFirst points_left };

    ghost remaining = { item_count points_left };

    #[tactic(auto, using(crate::proofs::Steps::one_left, crate::proofs::Steps::none_left))]
    fn next(&mut self) -> Option<Point> {
        let i = self.at;
        if i < self.ring.len() {
            self.at = i + 1;
            return Some(self.ring.corner(i));
        }
        None
    }
}

// The edges of a ring that are still to come.
#[derive(Drop)]
pub struct Edges<'a> {
    ring: Ring<'a>,
    at: usize,
}

impl<'a> Iterator for Edges<'a> {
    type Item = (Point, Point);

    ghost next_gives = { YieldsFirst edges_left };

    ghost remaining = { item_count edges_left };

    #[tactic(auto, using(crate::proofs::Steps::one_left, crate::proofs::Steps::none_left))]
    fn next(&mut self) -> Option<(Point, Point)> {
        let i = self.at;
        let n = self.ring.len();
        if i < n {
            self.at = i + 1;
            return Some((self.ring.corner(i), self.ring.corner(after(n, i))));
        }
        None
    }
}
