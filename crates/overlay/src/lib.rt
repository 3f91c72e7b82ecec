// The overlay of two meshes: the public call.
#![tactic(auto)]

ghost use Rattle.std.specs.Prelude.{◌≡◌, Ok, IfOk, [], ℕ, ◌*◌, ◌/◌, ◌≤◌, length, take};
ghost use Rattle.lists.specs.Regions.{zeros};
ghost use Rattle.refusals.specs.Numbers.{refused_with};
ghost use Rattle.entry.specs.Mesh.{mesh_of};
ghost use Rattle.rules.specs.Refusals.{course, first_refusal};
ghost use Rattle.rules.specs.Overlay.{piece_room, point_room, state_of, answered, overlay_of};
ghost use Rattle.finding.specs.Found.{found_events};
ghost use Rattle.views.specs.Same.{SameLists};
ghost use Rattle.overlay.specs.Shown.{lists_of, answer_of};
ghost use Rattle.overlay.specs.Prepared.{subject_of, cutter_of, Entered, PointRoom, PreparedIn, PlacedIn};

use cutting_cells::cut_meshes;
use edge_nodes::SceneLists;
use entry::entry;
use finding::find;
use indexing::index_meshes;
use layers::write_layers;
use passes::{count_named, write_families, write_kinds, write_parents};
use refusals::Refusal;
use regions::{Indexes, Regions};
use settings::Settings;
use views::{MeshView, OutputView};

// How many pieces there are, how many of the new points they name, and how many new points there are.
#[derive(Clone, Copy, Debug, PartialEq, Eq)]
pub struct Counts {
    pub pieces: u32,
    pub points: u32,
    pub added: u32,
}

// What the cells are cut by: the number that the next point has, where edges, cells, meetings and links stand in the working list, and the indexes there. The fields
// of finding's `Found` stand here by name, since each contract speaks of them.
#[derive(Clone, Copy)]
struct Prepared {
    next: usize,
    regions: Regions,
    indexes: Indexes,
}

// The coordinates of the first n nodes.
fn first_nodes(coords: &[f64], n: usize) -> &[f64]
    requires { 2 * n ≤ length coords.now }
    ensures { result.now ≡ take (2 * n) coords.now }
{
    &coords[..2 * n]
}

// A call behind the entry: what is set for it, and both meshes.
#[derive(Clone, Copy)]
struct Call<'a> {
    settings: Settings,
    subject: &'a MeshView<'a>,
    cutter: &'a MeshView<'a>,
}

// That the entry refused nothing is asked of the working list's length too. The list is lent to each stage for itself: in a call that held it each contract would have to say that it is the same list.
impl Call<'_> {
    // The stages between the entry and the cells: all coordinates and layers go to the fronts of their lists, what the cells are cut by to the working list.
    fn prepare(
        self,
        coords: &mut [f64],
        layers: &mut [u32],
        work: &mut [u32],
    ) -> Result<Prepared, Refusal>
        requires { Entered self (length work.old) × PointRoom coords.old layers.old }
        ensures refusal { (q n : ℕ) → refused_with result ≡ first_refusal self.entry.settings.m (length coords.old / 2) q n
            (found_events self.entry.settings (subject_of self.entry) (cutter_of self.entry)) }
        ensures prepared { IfOk result (λ p. PreparedIn self.entry.settings (subject_of self.entry) (cutter_of self.entry)
            coords.old layers.old coords.new layers.new work.new p) }
    {
        let found = find(self.settings, self.subject, self.cutter, coords, work)?;
        let g = found.regions;
        let edges = g.subject.edges.part(work);
        let met = g.met.part(work);
        write_layers(self.subject.layers, self.cutter.layers, edges, met, layers);
        let points = first_nodes(coords, found.next);
        let indexes = index_meshes(points, work, g, self.subject.ends, self.cutter.ends);
        Ok(Prepared {
            next: found.next,
            regions: g,
            indexes,
        })
    }

    // Places all pieces that the operation keeps, each with its tag; as many have a place as there is room for ends. Counts them, all new points, and those that
    // they name, these by marks in the working list: no later stage reads what stands there.
    // The lists come one by one: a struct of parts of a lent struct's lists isn't covered by the borrow checker.
    #[tactic(auto, using(crate::proofs::Whole::refused_before, refusals::proofs::Numbers::number_positive))]
    fn place(
        self,
        coords: &mut [f64],
        layers: &mut [u32],
        nodes: &mut [u32],
        ends: &mut [u32],
        tags: &mut [u32],
        work: &mut [u32],
    ) -> Result<Counts, Refusal>
        requires entered { Entered self (length work.old) }
        requires as_many { (length ends.old ≡ length tags.old) × PointRoom coords.old layers.old }
        ensures refusal { refused_with result ≡ first_refusal self.entry.settings.m (length coords.old / 2) (length ends.old) (length nodes.old)
            (course self.entry.settings (subject_of self.entry) (cutter_of self.entry)) }
        ensures placed { IfOk result (λ k. PlacedIn self.entry.settings (subject_of self.entry) (cutter_of self.entry) k
            coords.old layers.old nodes.old ends.old tags.old coords.new layers.new nodes.new ends.new tags.new) }
    {
        let p = self.prepare(coords, layers, work)?;
        let scene = SceneLists {
            grid: self.settings.grid,
            coords: first_nodes(coords, p.next),
            work,
            regions: p.regions,
        };
        let listed = cut_meshes(
            self.settings.op,
            scene,
            p.indexes,
            self.subject.ends,
            self.cutter.ends,
            nodes,
            ends,
            tags,
        )?;
        let lent = (self.subject.coords.len() + self.cutter.coords.len()) / 2;
        let added = p.next - lent;
        let points = count_named(&nodes[..listed.entries], lent, &mut work[..added]);
        Ok(Counts {
            pieces: listed.count as u32,
            points: points as u32,
            added: added as u32,
        })
    }

    // What stands behind the entry. The pieces' tags come into the list of families; kinds, parents and families are written by them. Where a stage
    // refuses, the lists are to be cleared.
    #[tactic(auto, using(crate::proofs::Whole::state_is))]
    fn run(self, out: &mut OutputView, work: &mut [u32]) -> Result<Counts, Refusal>
        requires { Entered self (length work.old) }
        ensures refusal { refused_with result ≡ state_of self.entry.settings (subject_of self.entry) (cutter_of self.entry) (lists_of out.old work.old) }
        ensures answer { IfOk result (λ k. answer_of (Ok k) (lists_of out.new (zeros (length work.old)))
            ≡ answered self.entry.settings (subject_of self.entry) (cutter_of self.entry) (lists_of out.old work.old)) }
        ensures same_lists { SameLists out.new out.old }
    {
        let points = point_room(out);
        let room = piece_room(out);
        let coords = &mut *out.coords;
        let layers = &mut *out.layers;
        let ends = &mut *out.ends;
        let tags = &mut *out.families;
        let counts = self.place(
            &mut coords[..2 * points],
            &mut layers[..points],
            out.nodes,
            &mut ends[..room],
            &mut tags[..room],
            work,
        )?;
        let tags = &mut tags[..counts.pieces as usize];
        write_kinds(tags, self.subject.kinds, self.cutter.kinds, out.kinds);
        let meshes = &mut *out.meshes;
        write_parents(tags, self.subject.ends.len(), meshes, out.cells);
        write_families(self.subject.families, self.cutter.families, tags);
        Ok(counts)
    }
}

// How many points have their places.
fn point_room(out: &OutputView) -> usize
    ensures { result ≡ point_room (lists_of out.now []) }
{
    out.layers.len().min(out.coords.len() / 2)
}

// How many pieces have their places.
fn piece_room(out: &OutputView) -> usize
    ensures { result ≡ piece_room (lists_of out.now []) }
{
    let parents = out.meshes.len().min(out.cells.len());
    let of_each = out.kinds.len().min(out.families.len().min(parents));
    out.ends.len().min(of_each)
}

// What is set (operation, meeting limit M, grid), subject, cutter, output lists, working list. The operation by its number: any number is answered.
#[tactic(auto, using(rules::proofs::Endings::input_refused, refusals::proofs::Numbers::number_positive))]
pub fn overlay(
    settings: Settings,
    subject: &MeshView,
    cutter: &MeshView,
    out: &mut OutputView,
    work: &mut [u32],
) -> Result<Counts, Refusal>
    ensures answer { answer_of result (lists_of out.new work.new)
        ≡ overlay_of settings (mesh_of subject.now) (mesh_of cutter.now) (lists_of out.old work.old) }
    ensures same_lists { SameLists out.new out.old }
{
    entry(settings, subject, cutter, work.len())?;
    let call = Call {
        settings,
        subject,
        cutter,
    };
    let result = call.run(out, work);
    if result.is_err() {
        out.clear();
    }
    work.fill(0);
    result
}
