// Segments of the plane, and where two of them meet (document 01, module 1). Each float operation rounds once, in the order written there.
#![tactic(auto)]

ghost use Rattle.std.specs.Prelude.{◌≡◌, ◌<◌};
ghost use Rattle.plane.specs.Plane.{is_number, scale, tolerance, in_unit};
ghost use Rattle.segments.specs.Code.{id_code, meeting_number};
ghost use Rattle.segments.specs.Colinear.{spread, parameters, orderable, of_order, colinear};
ghost use Rattle.segments.specs.Meet.{near, settled, crossing, meeting};
ghost use Rattle.segments.specs.declared.Meeting.TheVariants.{Apart};
ghost use Rattle.segments.specs.Scans.{exchanged, exchanged_ids, swept};

use plane::{Point, larger, magnitude};

#[derive(Clone, Copy, Debug, PartialEq)]
pub struct Segment {
    pub a: Point,
    pub b: Point,
}

// The ends of the first segment, then those of the second.
#[derive(Clone, Copy, Debug, PartialEq, Eq)]
pub enum PointId {
    P1 = 1,
    P2,
    P3,
    P4,
}

// Document 01's number of an end.
impl From<PointId> for u8 {
    ghost from_gives = { λ id n. n ≡ id_code id };

    fn from(id: PointId) -> u8
        ensures { result ≡ id_code id }
    {
        id as u8
    }
}

// No meeting; at one of the four ends; at a new point; all along between two of the ends. The cases are document 01's: a new point is two numbers there.
#[derive(Clone, Copy, Debug, PartialEq)]
pub enum Meeting {
    Apart,
    Existing(PointId),
    New(f64, f64),
    Overlap(PointId, PointId),
}

// 0 none, 1 to 4 an end, 5 a new point, 10 p + q two ends.
impl From<Meeting> for u8 {
    ghost from_gives = { λ m n. n ≡ meeting_number m };

    fn from(m: Meeting) -> u8
        ensures { result ≡ meeting_number m }
    {
        match m {
            Meeting::Apart => 0,
            Meeting::Existing(p) => u8::from(p),
            Meeting::New(_, _) => 5,
            Meeting::Overlap(p, q) => 10 * u8::from(p) + u8::from(q),
        }
    }
}

// ---- Sizes

// Four numbers one after the other: a fold from 0 is another answer where the first is no number, and one that begins with the first is no shorter.
#[tactic(auto, unfolding(plane::specs::Plane::scale))]
fn scale(v: Point, w: Point) -> f64
    ensures { result ≡ scale v w }
{
    larger(
        larger(larger(magnitude(v.x), magnitude(v.y)), magnitude(w.x)),
        magnitude(w.y),
    )
}

#[tactic(auto, unfolding(plane::specs::Plane::tolerance))]
fn tolerance(v: Point, w: Point) -> f64
    ensures { result ≡ tolerance v w }
{
    let s = scale(v, w);
    64.0 * (s * s) * f64::EPSILON
}

#[tactic(auto, using(plane::proofs::FloatOrder::partial_le_floats))]
fn in_unit(t: f64) -> bool
    ensures { result ≡ in_unit t }
{
    (0.0..=1.0).contains(&t)
}

// ---- The four ends along one line

fn spread(p: f64, q: f64, r: f64, s: f64) -> [f64; 4]
    ensures { result ≡ spread p q r s }
{
    let m = (p + q + r + s) / 4.0;
    let d = q - p;
    [p, q, r, s].map(|x| (x - m) / d)
}

#[tactic(auto, unfolding(crate::specs::Colinear::parameters))]
fn parameters(s: Segment, o: Segment) -> [f64; 4]
    ensures { result ≡ parameters s o }
{
    let v = s.b - s.a;
    if magnitude(v.y) < magnitude(v.x) {
        spread(s.a.x, s.b.x, o.a.x, o.b.x)
    } else {
        spread(s.a.y, s.b.y, o.a.y, o.b.y)
    }
}

#[tactic(auto, using(plane::proofs::FloatOrder::number_not_nan))]
fn is_number(t: f64) -> bool
    ensures { result ≡ is_number t }
{
    !t.is_nan()
}

// As entry's `coords_ok` an `all` by a test of its own: what the two have in common is the library's method.
#[tactic(auto, using(crate::proofs::Sorted::orderable_all))]
fn orderable(ts: [f64; 4]) -> bool
    ensures { result ≡ orderable ts }
{
    ts.iter().all(|t| is_number(*t))
}

// The four ends by id, and the parameter of each: two arrays by value, put in order together, are document 01's form.
#[derive(Clone, Copy)]
struct Ends {
    ts: [f64; 4],
    ids: [PointId; 4],
}

impl Ends {
    // Those at i and i + 1 exchanged where the second has the lower parameter.
    #[tactic(auto, unfolding(crate::specs::Scans::exchanged, crate::specs::Scans::exchanged_ids))]
    fn exchanged(mut self, i: usize) -> Ends
        requires { i < 3 }
        ensures parameters { result.ts ≡ exchanged self.ts i }
        ensures ids { result.ids ≡ exchanged_ids self.ts self.ids i }
    {
        if self.ts[i + 1] < self.ts[i] {
            self.ts.swap(i, i + 1);
            self.ids.swap(i, i + 1);
        }
        self
    }
}

// The ids in the order of their parameters, equal ones as P1 to P4, as document 01 has it: each one moves down past those that it is lower than, by exchanges.
// `sort_by`, which keeps equal ones in place, takes a heap; `sort_unstable_by` would have to be told the places of equal ones, by a test longer than the exchange.
#[tactic(auto, unfolding(crate::specs::Scans::swept))]
fn in_order(ts: [f64; 4]) -> [PointId; 4]
    ensures { result ≡ swept ts }
{
    let mut ends = Ends {
        ts,
        ids: [PointId::P1, PointId::P2, PointId::P3, PointId::P4],
    };
    for i in [0, 1, 0, 2, 1, 0] {
        ends = ends.exchanged(i);
    }
    ends.ids
}

// The last arm, and the `else` of `colinear`, stand where the Rust panics; no segments come there (proofs/Stops.antt).
#[tactic(auto, unfolding(crate::specs::Colinear::of_order, crate::specs::Colinear::first_then_second))]
fn of_order(ids: [PointId; 4]) -> Meeting
    ensures { result ≡ of_order Apart ids }
{
    use PointId::{P1, P2};
    match ids {
        [P1, P2, _, _] | [_, _, P1, P2] => Meeting::Apart,
        [P1, a, P2, _] => Meeting::Overlap(a, P2),
        [P1, a, b, P2] => Meeting::Overlap(a, b),
        [_, P1, a, P2] => Meeting::Overlap(P1, a),
        [_, P1, P2, _] => Meeting::Overlap(P1, P2),
        _ => Meeting::Apart,
    }
}

#[tactic(auto, unfolding(crate::specs::Colinear::colinear), using(crate::proofs::Sorted::colinear_is))]
fn colinear(s: Segment, o: Segment) -> Meeting
    ensures { result ≡ colinear Apart s o }
{
    let ts = parameters(s, o);
    if orderable(ts) {
        of_order(in_order(ts))
    } else {
        Meeting::Apart
    }
}

// ---- The meeting

#[tactic(auto, unfolding(crate::specs::Meet::near))]
fn near(p: Point, q: Point, eps: f64) -> bool
    ensures { result ≡ near p q eps }
{
    let v = p - q;
    v.dot(v) < eps
}

// The first end that is near the point, else the point. A `find` in an array of the ends with their ids was tried: the search left its proof open.
#[tactic(auto, unfolding(crate::specs::Meet::settled))]
fn settled(s: Segment, o: Segment, p: Point, eps: f64) -> Meeting
    ensures { result ≡ settled s o p eps }
{
    if near(s.a, p, eps) {
        Meeting::Existing(PointId::P1)
    } else if near(s.b, p, eps) {
        Meeting::Existing(PointId::P2)
    } else if near(o.a, p, eps) {
        Meeting::Existing(PointId::P3)
    } else if near(o.b, p, eps) {
        Meeting::Existing(PointId::P4)
    } else {
        Meeting::New(p.x, p.y)
    }
}

#[tactic(auto, unfolding(crate::specs::Meet::crossing))]
fn crossing(s: Segment, o: Segment, v1: Point, v2: Point, v3: Point, eps: f64) -> Meeting
    ensures { result ≡ crossing s o v1 v2 v3 eps }
{
    let d = v1.cross(v2);
    let t = v3.cross(v2) / d;
    let u = v3.cross(v1) / d;
    if in_unit(t) && in_unit(u) {
        settled(s, o, s.a.along(t, v1), eps)
    } else {
        Meeting::Apart
    }
}

impl Segment {
    #[tactic(auto, unfolding(crate::specs::Meet::meeting_or))]
    pub fn intersect(self, other: Segment) -> Meeting
        ensures { result ≡ meeting self other }
    {
        let v1 = self.b - self.a;
        let v2 = other.b - other.a;
        let v3 = other.a - self.a;
        let eps = tolerance(v1, v2);
        if v2.dot(v2) < eps || v1.dot(v1) < eps {
            Meeting::Apart
        } else if magnitude(v1.cross(v2)) < eps {
            if eps < magnitude(v3.cross(v1)) {
                Meeting::Apart
            } else {
                colinear(self, other)
            }
        } else {
            crossing(self, other, v1, v2, v3, eps)
        }
    }
}
