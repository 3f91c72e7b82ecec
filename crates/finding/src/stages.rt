// The stages before the cells, one after the other.
ghost use Rattle.std.specs.Prelude.{◌≡◌, IfOk, true, ◌++◌, ◌+◌, ◌-◌, ◌/◌, ◌≤◌, leb, eqb, length, take};
ghost use Rattle.lists.specs.Gather.{joined};
ghost use Rattle.lists.specs.Regions.{front};
ghost use Rattle.refusals.specs.Numbers.{by_number, refused_with};
ghost use Rattle.rules.specs.Refusals.{of_meeting, first_refusal};
ghost use Rattle.regions.specs.Runs.{run_in};
ghost use Rattle.finding.specs.Nets.{plain_of, FindAsks};
ghost use Rattle.finding.specs.Found.{regions_by, found_of, both_full, LinkedIn, MeetingsRoom, CutterIndexed, met_in, MetWritten, LinkRoom, linked_by, StagesGive};

use crate::numbering::{NetPlaces, nets};
use edge_nodes::{LinkedMeetings, link_meetings};
use entry::Operation;
use lists::copy_at;
use meetings::Edges;
use refusals::Refusal;
use regions::{Regions, Run};
use settings::Settings;
use strips::{Index, Things};
use views::MeshView;

// Where both meshes, the meetings and their links stand in the working list; how many nodes there are.
#[derive(Clone, Copy)]
pub struct Found {
    pub regions: Regions,
    pub next: usize,
}

// Places the coordinates of both meshes, the subject's first. Answers whether they have their place, as `copy_at` does; what is refused then is said once, below.
// Two lists into a third: none runs beside another.
fn place_coords(sc: &[f64], cc: &[f64], oc: &mut [f64]) -> bool
    ensures { (result ≡ leb (length sc.now + length cc.now) (length oc.old))
        × (result ≡ true → oc.new ≡ front oc.old (sc.now ++ cc.now)) }
{
    copy_at(oc, 0, sc) && copy_at(oc, sc.len(), cc)
}

// The meetings of the edges that n names, on the grid if there is one: new points behind the first `placed` coordinates, the meetings behind the nets. Both lists are cut here, since the stages
// before and behind take them whole. A meeting is five numbers there: C lends one list of numbers for all of this, and the cells read them by the links.
#[tactic(auto, using(crate::proofs::Lent::met_written))]
fn meet(
    settings: Settings,
    n: NetPlaces,
    placed: usize,
    coords: &mut [f64],
    work: &mut [u32],
) -> Result<meetings::Found, Refusal>
    requires { MeetingsRoom n (length coords.old) (length work.old) placed settings.m × CutterIndexed n (take placed coords.old) work.old }
    ensures code { refused_with result ≡ first_refusal settings.m (length coords.old / 2 - placed / 2) 0 0 (joined of_meeting (met_in settings.grid n placed coords.old work.old)) }
    ensures written { IfOk result (MetWritten settings.grid n placed coords.old work.old coords.new work.new) }
{
    let (coords, points) = coords.split_at_mut(placed);
    let (nets, rest) = work.split_at_mut(n.behind);
    let (met, _) = rest.split_at_mut(5 * settings.m as usize);
    let nets: &[u32] = nets;
    let things = Things {
        coords,
        nodes: n.cutter.edges.part(nets),
        ends: &[],
    };
    let cutter = Index {
        things,
        numbers: n.index.part(nets),
    };
    let edges = Edges {
        grid: settings.grid,
        subject: n.subject.edges.part(nets),
        cutter,
    };
    edges.compute_intersections(points, met)
}

// Whether over 256 nodes are collected under the key of an edge of either mesh.
#[tactic(auto, using(crate::proofs::Ends::first_full, crate::proofs::Ends::second_full))]
fn either_overfull(m: &LinkedMeetings) -> bool
    ensures { result ≡ both_full m.now.subject.now m.now.cutter.now m.now.met.now }
{
    m.overfull(m.subject) || m.overfull(m.cutter)
}

// Refusal 9, by the working list. Its meetings are put together as in edge_nodes' `nodes_on`: one function for both would be public, and ask of the regions what
// each asks for itself.
#[tactic(auto, using(crate::proofs::Ends::parts_linked, crate::proofs::Ends::parts_full))]
fn crowded(w: &[u32], g: Regions) -> bool
    requires { LinkedIn w.now g }
    ensures { result ≡ both_full (run_in w.now g.subject.edges) (run_in w.now g.cutter.edges) (run_in w.now g.met) }
{
    let meetings = LinkedMeetings {
        subject: g.subject.edges.part(w),
        cutter: g.cutter.edges.part(w),
        met: g.met.part(w),
        links: g.links.part(w),
    };
    either_overfull(&meetings)
}

// Writes the links of h chains behind the `count` meetings, and names the regions. The list whole, as it is lent on; both numbers count, neither is a place.
fn link(w: &mut [u32], n: NetPlaces, count: usize, h: usize) -> Regions
    requires { LinkRoom n count h (length w.old) }
    ensures { (result ≡ regions_by n count h) × (w.new ≡ linked_by n count h w.old) }
{
    let met = Run {
        from: n.behind,
        end: n.behind + 5 * count,
    };
    let (nets, rest) = w.split_at_mut(met.end);
    let (links, _) = rest.split_at_mut(2 * (h + count));
    link_meetings(
        n.subject.edges.part(nets),
        n.cutter.edges.part(nets),
        met.part(nets),
        h,
        links,
    );
    Regions {
        subject: n.subject,
        cutter: n.cutter,
        met,
        links: Run {
            from: met.end,
            end: met.end + 2 * (h + count),
        },
    }
}

// Whether the operation with this number cuts a mesh by lines. By the number, since the promise of `find` is for each number, one that names no operation too.
fn takes_lines(op: u32) -> bool
    ensures { result ≡ eqb op 5 }
{
    matches!(Operation::try_from(op), Ok(Operation::Lines))
}

// Refusals 12, 8, 12 and 9, in this order; one leaves the lists as they are then. By the operation's number, as `find` is.
#[tactic(auto, using(crate::proofs::Ends::twelve, crate::proofs::Ends::coords_lent, crate::proofs::Ends::met_stop, crate::proofs::Ends::nine_stop))]
fn stages(
    settings: Settings,
    subject: &MeshView,
    cutter: &MeshView,
    coords: &mut [f64],
    work: &mut [u32],
) -> Result<Found, Refusal>
    requires { FindAsks settings (plain_of subject.now) (plain_of cutter.now) (length work.old) }
    ensures { StagesGive settings (plain_of subject.now) (plain_of cutter.now) coords.old work.old coords.new work.new result }
{
    if !place_coords(subject.coords, cutter.coords, coords) {
        return Err(Refusal::NoPlace);
    }
    let placed = subject.coords.len() + cutter.coords.len();
    let n = nets(
        takes_lines(settings.op),
        &coords[..placed],
        subject,
        cutter,
        work,
    );
    let f = meet(settings, n, placed, coords, work)?;
    let g = link(work, n, f.met, placed / 2 + 1);
    if crowded(work, g) {
        return Err(Refusal::CrowdedEdge);
    }
    Ok(Found {
        regions: g,
        next: placed / 2 + f.points,
    })
}

// The coordinates of both meshes and the new points go to the front of `coords`, the edges, the meetings and their links to the working list. A refusal
// leaves zeros. By the operation's number, as the promise is for each number.
#[tactic(auto, using(crate::proofs::Ends::kept_all))]
pub fn find(
    settings: Settings,
    subject: &MeshView,
    cutter: &MeshView,
    coords: &mut [f64],
    work: &mut [u32],
) -> Result<Found, Refusal>
    requires { FindAsks settings (plain_of subject.now) (plain_of cutter.now) (length work.old) }
    ensures { record { answer = by_number result; coords = coords.new; work = work.new }
        ≡ found_of settings (plain_of subject.now) (plain_of cutter.now) coords.old work.old }
{
    let answer = stages(settings, subject, cutter, coords, work);
    if answer.is_err() {
        coords.fill(0.0);
        work.fill(0);
    }
    answer
}
