// The plane cut into strips by x and by y, and their squares on levels: on each level they are twice as wide as on the one before.
ghost use Rattle.std.specs.Prelude.{◌≡◌, ◌≤◌, ◌<◌, length};
ghost use Rattle.strips.specs.Squares.{coordinate_of, strip_of, span_of, is_wide, halved, narrowed, square_chain, Small};

use plane::point_at;
use rules::Bounds;

// Which of a node's two coordinates.
#[derive(Clone, Copy)]
pub(crate) enum Axis {
    X,
    Y,
}

// From which strip to which something reaches by x and by y, on a level whose squares have their chains from `at` on, `side` to a row.
// `Small` is no ghost field of it: the definitions make spans of any size (`span_of`, `halved`), and could not with one.
#[derive(Clone, Copy)]
pub(crate) struct Span {
    pub x0: usize,
    pub x1: usize,
    pub y0: usize,
    pub y1: usize,
    pub at: usize,
    pub side: usize,
    pub level: usize,
}

// The nodes at which strips begin, by x and by y: as many of each.
#[derive(Clone, Copy)]
pub(crate) struct Strips<'a> {
    pub xs: &'a [u32],
    pub ys: &'a [u32],
    ghost some: { 0 < length xs.now },
    ghost even: { length ys.now ≡ length xs.now },
    ghost narrow: { length xs.now ≤ 256 },
}

// A coordinate of node v.
#[tactic(auto, unfolding(crate::specs::Squares::coordinate_of, plane::specs::Plane::point_at))]
pub(crate) fn coordinate(coords: &[f64], axis: Axis, v: u32) -> f64
    ensures { result ≡ coordinate_of coords.now axis v }
{
    let p = point_at(coords, v);
    match axis {
        Axis::X => p.x,
        Axis::Y => p.y,
    }
}

// The strip of v by halving: each strip begins at one of the nodes in `bounds`.
// No `partition_point`: it promises nothing of bounds that are in no order, which these may be.
#[tactic(auto, using(crate::proofs::Strips::halving_start, crate::proofs::Strips::halving_up, crate::proofs::Strips::halving_down))]
pub(crate) fn strip(coords: &[f64], bounds: &[u32], axis: Axis, v: f64) -> usize
    requires { 0 < length bounds.now }
    ensures strip { result ≡ strip_of coords.now bounds.now axis v }
    ensures within { result < length bounds.now }
{
    let mut lo: usize = 0;
    let mut n = bounds.len();
    while 1 < n {
        let half = n / 2;
        let c = coordinate(coords, axis, bounds[lo + half]);
        if c <= v {
            lo += half;
        }
        n -= half;
    }
    lo
}

impl<'a> Strips<'a> {
    // Those that a box reaches, on the first level.
    #[tactic(auto, unfolding(crate::specs::Squares::span_of))]
    pub(crate) fn span(&self, coords: &[f64], b: Bounds) -> Span
        ensures span { result ≡ span_of coords.now self.now.xs.now self.now.ys.now b }
        ensures small { Small result }
        ensures level { result.level ≡ 0 }
    {
        let x0 = strip(coords, self.xs, Axis::X, b.left);
        let x1 = strip(coords, self.xs, Axis::X, b.right);
        let y0 = strip(coords, self.ys, Axis::Y, b.low);
        let y1 = strip(coords, self.ys, Axis::Y, b.high);
        Span {
            x0,
            x1,
            y0,
            y1,
            at: 0,
            side: self.xs.len(),
            level: 0,
        }
    }
}

impl Span {
    // The same on the next level.
    pub(crate) fn halved(self) -> Span
        requires { Small self × (self.level < 1024) }
        ensures { (result ≡ halved self) × Small result }
    {
        Span {
            x0: self.x0 / 2,
            x1: self.x1 / 2,
            y0: self.y0 / 2,
            y1: self.y1 / 2,
            at: self.at + self.side * self.side,
            side: (self.side + 1) / 2,
            level: self.level + 1,
        }
    }

    // Over two strips by x or by y.
    fn is_wide(self) -> bool
        requires { Small self }
        ensures { result ≡ is_wide self }
    {
        (self.x0 + 1 < self.x1) | (self.y0 + 1 < self.y1)
    }

    // On the first level where it reaches two strips at most, by x and by y. A walk from level to level, no index.
    #[tactic(auto, using(crate::proofs::Spans::way_turn, crate::proofs::Spans::way_end))]
    pub(crate) fn narrowed(self) -> Span
        requires { Small self × (self.level ≡ 0) }
        ensures { (result ≡ narrowed 512 self) × Small result × (result.level ≤ 512) }
    {
        let mut r = self;
        while r.is_wide() {
            r = r.halved();
        }
        r
    }

    // The chain of a square, of h chains; chain 0 where there are no more.
    #[tactic(auto, using(crate::proofs::Spans::chain_there, crate::proofs::Spans::chain_none))]
    pub(crate) fn chain(self, h: usize, x: usize, y: usize) -> usize
        requires { (0 < h) × Small self × (x ≤ 256) × (y ≤ 256) }
        ensures { (result ≡ square_chain h self x y) × (result < h) }
    {
        let c = self.at + y * self.side + x;
        if c < h { c } else { 0 }
    }
}
