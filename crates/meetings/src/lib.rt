// Where edges of the two meshes meet (document 01, module 7, `compute_intersections`). New points go to one list, meetings to another: five numbers each, not
// structs, since they stand in the caller's working list, which holds numbers of every kind (fixed memory).
#![tactic(auto)]

ghost use Rattle.std.specs.Prelude.{◌≡◌, [], ◌∷◌, IfOk, IsOk, IsErrAnd, ◌+◌, ◌*◌, ◌/◌, ◌≤◌, ◌<◌, length};
ghost use Rattle.lists.specs.Regions.{put};
ghost use Rattle.cutting.specs.Edges.{edge_at};
ghost use Rattle.cutting.specs.Lent.{pairs};
ghost use Rattle.refusals.specs.Numbers.{by_number};
ghost use Rattle.grid.specs.Grid.{OnGrid};
ghost use Rattle.rules.specs.SpatialIndex.{edge_box, candidates};
ghost use Rattle.rules.specs.Meetings.{node_of, segment_of, moved_to, meeting_on, NewOnGrid};
ghost use Rattle.meetings.specs.InNumbers.{meetings_of};
ghost use Rattle.meetings.specs.MeetingsFound.{meetings_found};
ghost use Rattle.meetings.specs.Front.{AllOnGrid};

use grid::booked;
use lists::copy_at;
use plane::point_at;
use refusals::Refusal;
use segments::{Meeting, PointId, Segment};
use spatial_index::edge_bounds;
use strips::Index;

// How many meetings there are, and how many new points.
#[derive(Clone, Copy)]
pub struct Found {
    pub met: usize,
    pub points: usize,
}

// The lists that new points and meetings are written to, and what stands at their fronts. At most 65,536 meetings have room; each has one new point at most. The new
// points are on the grid, where there is one: that is relied on from the meeting rule. Each method promises that they are the same lists, so that who lent them knows what they come to hold.
#[derive(Drop)]
struct MetLists<'a> {
    grid: Option<u32>,
    points: &'a mut [f64],
    met: &'a mut [u32],
    found: Found,
    ghost most: { length met.now / 5 ≤ 65536 },
    ghost within: { found.met ≤ length met.now / 5 },
    ghost placed: { 2 * found.points ≤ length points.now },
    ghost fewer: { found.points ≤ found.met },
    ghost on_grid: { AllOnGrid grid (2 * found.points) points.now },
}

// The edges of both meshes, two node numbers each: the subject's, and the cutter's with their index, over the coordinates of both; and the grid of new points, if
// there is one.
#[derive(Clone, Copy)]
pub struct Edges<'a> {
    pub grid: Option<u32>,
    pub subject: &'a [u32],
    pub cutter: Index<'a>,
    ghost few: { length subject.now ≤ 131072 },
    ghost pairs: { cutter.things.ends.now ≡ [] },
    ghost placed: { length cutter.things.coords.now ≤ 65536 },
    ghost even: { 2 * (length cutter.things.coords.now / 2) ≡ length cutter.things.coords.now },
}

// A node of the edge e or of the edge f.
fn node_of(p: PointId, e: (u32, u32), f: (u32, u32)) -> u32
    ensures { result ≡ node_of e f p }
{
    match p {
        PointId::P1 => e.0,
        PointId::P2 => e.1,
        PointId::P3 => f.0,
        PointId::P4 => f.1,
    }
}

// A meeting whose new point, if it has one, is put on the grid.
fn moved_to(grid: Option<u32>, m: Meeting) -> Meeting
    ensures meeting { result ≡ moved_to grid m }
    ensures on_grid { NewOnGrid grid result }
{
    match m {
        Meeting::New(x, y) => Meeting::New(booked(grid, x), booked(grid, y)),
        m => m,
    }
}

// How the edge e meets the edge f: a new point is tested against their nodes before it is put on the grid.
#[tactic(auto, unfolding(rules::specs::Meetings::segment_of, rules::specs::Meetings::meeting_on))]
fn edges_meet(grid: Option<u32>, coords: &[f64], e: (u32, u32), f: (u32, u32)) -> Meeting
    ensures meeting { result ≡ meeting_on grid (segment_of coords.now e) (segment_of coords.now f) }
    ensures on_grid { NewOnGrid grid result }
{
    let s = Segment {
        a: point_at(coords, e.0),
        b: point_at(coords, e.1),
    };
    let o = Segment {
        a: point_at(coords, f.0),
        b: point_at(coords, f.1),
    };
    moved_to(grid, s.intersect(o))
}

// Edge i of those that stand as pairs of numbers.
#[tactic(auto, using(crate::proofs::Near::edge_read))]
fn edge_at(edges: &[u32], i: usize) -> (u32, u32)
    requires { i < length edges.now / 2 }
    ensures { result ≡ edge_at (pairs edges.now) i }
{
    let [a, b] = edges.as_chunks::<2>().0[i];
    (a, b)
}

impl<'a> MetLists<'a> {
    ghost use Rattle.meetings.specs.Steps.{SameLists};

    // A meeting at one or two nodes that there are already, if there is room for one more: its two edges, the count of its nodes, and these. Count and second
    // node, 0 for none, as they are written: an `Option` would be turned into the same two numbers at once.
    #[tactic(auto, using(lists::proofs::Regions::copied_fits))]
    fn add_known(&mut self, i: usize, j: usize, count: u32, u: u32, v: u32) -> Result<(), Refusal>
        requires { (i < 65536) × (j < 65536) }
        ensures over { length self.old.met.now / 5 ≤ self.old.found.met → IsErrAnd result (λ e. e ≡ Refusal.TooManyMeetings) }
        ensures added { self.old.found.met < length self.old.met.now / 5 → IsOk result × (self.new.found ≡ record { met = self.old.found.met + 1; points = self.old.found.points })
            × (self.new.points.now ≡ self.old.points.now) × (self.new.met.now ≡ put self.old.met.now (5 * self.old.found.met) (i ∷ j ∷ count ∷ u ∷ v ∷ [])) }
        ensures same_lists { SameLists self.new self.old }
    {
        let at = 5 * self.found.met;
        if !copy_at(self.met, at, &[i as u32, j as u32, count, u, v]) {
            return Err(Refusal::TooManyMeetings);
        }
        self.found.met += 1;
        Ok(())
    }

    // A meeting at a new point, whose number is n: the limit is looked at before the point's place.
    #[tactic(auto, using(lists::proofs::Regions::copied_fits, crate::proofs::Front::one_more, crate::proofs::Front::still_those))]
    fn add_new(&mut self, i: usize, j: usize, n: u32, p: (f64, f64)) -> Result<(), Refusal>
        requires few { (i < 65536) × (j < 65536) }
        requires on_grid { OnGrid self.old.grid p.0 × OnGrid self.old.grid p.1 }
        ensures over { length self.old.met.now / 5 ≤ self.old.found.met → IsErrAnd result (λ e. e ≡ Refusal.TooManyMeetings) }
        ensures full { self.old.found.met < length self.old.met.now / 5 → length self.old.points.now < 2 * self.old.found.points + 2 → IsErrAnd result (λ e. e ≡ Refusal.NoPlace) }
        ensures added { self.old.found.met < length self.old.met.now / 5 → 2 * self.old.found.points + 2 ≤ length self.old.points.now
            → IsOk result × (self.new.found ≡ record { met = self.old.found.met + 1; points = self.old.found.points + 1 })
            × (self.new.points.now ≡ put self.old.points.now (2 * self.old.found.points) (p.0 ∷ p.1 ∷ []))
            × (self.new.met.now ≡ put self.old.met.now (5 * self.old.found.met) (i ∷ j ∷ 1 ∷ n ∷ 0 ∷ [])) }
        ensures same_lists { SameLists self.new self.old }
    {
        self.add_known(i, j, 1, n, 0)?;
        let at = 2 * self.found.points;
        if !copy_at(self.points, at, &[p.0, p.1]) {
            return Err(Refusal::NoPlace);
        }
        self.found.points += 1;
        Ok(())
    }
}

impl<'a> Edges<'a> {
    ghost use Rattle.meetings.specs.Steps.{met_of, met_with, Answered};

    // Adds the meeting of the subject's edge i with the cutter's edge j, if they meet. New points are numbered behind the nodes of both meshes.
    #[tactic(auto, using(crate::proofs::Near::pairs_few))]
    fn add_intersection(&self, lists: &mut MetLists, i: usize, j: usize) -> Result<(), Refusal>
        requires within { (i < length self.now.subject.now / 2) × (j < length self.now.cutter.things.nodes.now / 2) }
        requires one_grid { lists.old.grid ≡ self.now.grid }
        ensures { Answered (met_of self.now.grid self.now.cutter.things.coords.now i j (length self.now.cutter.things.coords.now / 2 + lists.old.found.points)
            (edge_at (pairs self.now.subject.now) i) (edge_at (pairs self.now.cutter.things.nodes.now) j))
            lists.old lists.new result }
    {
        let coords = self.cutter.things.coords;
        let s = edge_at(self.subject, i);
        let c = edge_at(self.cutter.things.nodes, j);
        match edges_meet(self.grid, coords, s, c) {
            Meeting::Apart => Ok(()),
            Meeting::Existing(p) => lists.add_known(i, j, 1, node_of(p, s, c), 0),
            Meeting::New(x, y) => {
                let n = (coords.len() / 2 + lists.found.points) as u32;
                lists.add_new(i, j, n, (x, y))
            }
            Meeting::Overlap(p, q) => {
                lists.add_known(i, j, 2, node_of(p, s, c), node_of(q, s, c))
            }
        }
    }

    // Adds those of the subject's edge i with all its candidates.
    fn add_for_edge(&self, lists: &mut MetLists, i: usize) -> Result<(), Refusal>
        requires within { i < length self.now.subject.now / 2 }
        requires one_grid { lists.old.grid ≡ self.now.grid }
        ensures { Answered (met_with self.now.grid self.now.cutter.things.coords.now i (edge_at (pairs self.now.subject.now) i) (edge_at (pairs self.now.cutter.things.nodes.now))
            (length self.now.cutter.things.coords.now / 2 + lists.old.found.points)
            (candidates self.now.cutter.things.coords.now (pairs self.now.cutter.things.nodes.now) (edge_box self.now.cutter.things.coords.now (edge_at (pairs self.now.subject.now) i))))
            lists.old lists.new result }
    {
        let e = edge_at(self.subject, i);
        let bounds = edge_bounds(self.cutter.things.coords, e.0, e.1);
        for j in self.cutter.near_many(bounds) {
            self.add_intersection(lists, i, j)?;
        }
        Ok(())
    }

    // Adds those of all the subject's edges to none.
    fn add_for_edges(&self, lists: &mut MetLists) -> Result<(), Refusal>
        requires none { (lists.old.found.met ≡ 0) × (lists.old.found.points ≡ 0) }
        requires one_grid { lists.old.grid ≡ self.now.grid }
        ensures { Answered (meetings_of self.now.grid self.now.cutter.things.coords.now self.now.subject.now self.now.cutter.things.nodes.now) lists.old lists.new result }
    {
        // By number, which a meeting is written with: `enumerate` over the pairs would give the edge besides, which `add_for_edge` reads by its number.
        for i in 0..self.subject.len() / 2 {
            self.add_for_edge(lists, i)?;
        }
        Ok(())
    }

    // The meetings by subject edge, then candidate in rising index, five numbers each: as many as `met` has room for; new points are numbered as found.
    // A refusal leaves zeros. Where there is a grid the new points are on it.
    #[tactic(auto, using(crate::proofs::Loops::all_found))]
    pub fn compute_intersections(
        &self,
        points: &mut [f64],
        met: &mut [u32],
    ) -> Result<Found, Refusal>
        requires { length met.old / 5 ≤ 65536 }
        ensures found { record { answer = by_number result; points = points.new; met = met.new }
            ≡ meetings_found (meetings_of self.now.grid self.now.cutter.things.coords.now self.now.subject.now self.now.cutter.things.nodes.now) points.old met.old }
        ensures on_grid { IfOk result (λ f. AllOnGrid self.now.grid (2 * f.points) points.new) }
    {
        let mut lists = MetLists {
            grid: self.grid,
            points,
            met,
            found: Found { met: 0, points: 0 },
        };
        match self.add_for_edges(&mut lists) {
            Ok(()) => Ok(lists.found),
            Err(e) => {
                points.fill(0.0);
                met.fill(0);
                Err(e)
            }
        }
    }
}
