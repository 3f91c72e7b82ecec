// The cells of one mesh (document 01, module 7): each is copied or cut, and those of its pieces that the operation keeps are placed behind the others.
#![tactic(auto)]

ghost use Rattle.std.specs.Prelude.{◌≡◌, [], ◌+◌, ◌*◌, ◌^◌, ◌≤◌, ◌<◌, length, take, IfOk, OnOk};
ghost use Rattle.lists.specs.Search.{bit};
ghost use Rattle.cutting.specs.Edges.{ring};
ghost use Rattle.cutting.specs.Cell.{repeats};
ghost use Rattle.cutting.specs.Outcome.{copied_outcome};
ghost use Rattle.rules.specs.Mesh.{the_cutter};
ghost use Rattle.rules.specs.Operations.{cuts};
ghost use Rattle.regions.specs.Runs.{run_in};
ghost use Rattle.cells.specs.Cells.{cut, cut_as, edges_in, Places, AllFew};
ghost use Rattle.pieces.specs.Pieces.{placing, left, placed_behind, placed_on, SameLists};
ghost use Rattle.cutting_cells.specs.Yields.{meshes_yield, none_yet, Few, OtherReady, MeshesReady};

use cells::cut_cell;
use corners::next_corner;
use dart_walk::Counts;
use edge_nodes::SceneLists;
use entry::Operation;
use lists::{Runs, copy_at};
use outlines::edges_repeat;
use pieces::{Keep, Listed, PieceLists, keep_of};
use refusals::Refusal;
use regions::{Indexes, MeshIndex, MeshRuns};
use spatial_index::bounds2;
use strips::{Index, Things};

// ---- A cell

// A cell of a mesh: its number among those of both, and its corners.
#[derive(Clone, Copy)]
struct Cell<'a> {
    number: usize,
    corners: &'a [u32],
    ghost numbered: { number < 2 ^ 31 },
    ghost short: { length corners.now ≤ 256 },
}

impl<'a> Cell<'a> {
    // Whether its own edges pass between the same two nodes twice or from a node to itself.
    #[tactic(auto, using(crate::proofs::Copy::sided_none, crate::proofs::Copy::sided_all))]
    fn repeats(&self) -> bool
        ensures { result ≡ repeats (ring self.now.corners.now) }
    {
        let corners = self.corners;
        let mut sides = [0u32; 512];
        // written by index: of a list written through `chunks_exact_mut` a proof knows the length alone
        for (i, a) in corners.iter().enumerate() {
            sides[2 * i] = *a;
            sides[2 * i + 1] = next_corner(corners, i);
        }
        edges_repeat(&sides[..2 * corners.len()])
    }

    // The cell itself as its one piece, unless its own edges repeat (19). `runs` and `stops` come one by one, here and below, as cells' `cut_cell` takes them: a
    // struct of the two arrays would be taken apart there.
    fn copy(&self, runs: &mut [u32; 1024], stops: &mut [u32; 1024]) -> Result<Counts, Refusal>
        ensures { cut result runs.new stops.new ≡ cut_as (copied_outcome self.now.corners.now) runs.old stops.old }
    {
        if self.repeats() {
            cells::clear(runs, stops);
            return Err(Refusal::RepeatedEdge);
        }
        copy_at(runs, 0, self.corners);
        stops[0] = self.corners.len() as u32;
        Ok(Counts {
            pieces: 1,
            entries: self.corners.len(),
        })
    }

    // The tag of its pieces.
    fn tag(&self, cut: bool) -> u32
        ensures { result ≡ 2 * self.now.number + bit cut }
    {
        (2 * self.number + usize::from(cut)) as u32
    }
}

// ---- Cells of a mesh

// How the cells of a mesh are treated: which pieces are kept, and the other mesh by which they are cut, as it stands in the working list with its
// indexes; `ends` is where its cells end.
#[derive(Clone, Copy)]
struct Treatment<'a> {
    scene: SceneLists<'a>,
    keep: Keep,
    other: MeshRuns,
    index: MeshIndex,
    ends: &'a [u32],
    ghost ready: { OtherReady scene.coords.now scene.work.now scene.regions other ends.now index },
}

impl<'a> Treatment<'a> {
    ghost use Rattle.cutting_cells.specs.Treated.{near_to, outcome_of, Readable, yield_for, all_yield, CellsAsk};

    // The other mesh's edges. Two functions, this and the next: one of the runs would have to ask for either what `ready` says of both.
    fn edges(&self) -> Index<'a>
        ensures { (result.things.coords.now ≡ self.now.scene.coords.now) × (result.things.nodes.now ≡ run_in self.now.scene.work.now self.now.other.edges)
            × (result.things.ends.now ≡ []) }
    {
        let things = Things {
            coords: self.scene.coords,
            nodes: self.other.edges.part(self.scene.work),
            ends: &self.ends[..0],
        };
        Index {
            things,
            numbers: self.index.edges.part(self.scene.work),
        }
    }

    // Its cells.
    fn cells(&self) -> Index<'a>
        ensures { (result.things.coords.now ≡ self.now.scene.coords.now) × (result.things.nodes.now ≡ run_in self.now.scene.work.now self.now.other.entries)
            × (result.things.ends.now ≡ self.now.ends.now) }
    {
        let things = Things {
            coords: self.scene.coords,
            nodes: self.other.entries.part(self.scene.work),
            ends: self.ends,
        };
        Index {
            things,
            numbers: self.index.cells.part(self.scene.work),
        }
    }

    // Writes the places of the edges near a cell to the front of `found`. Answers how many they are: memory is fixed, and the room is one for all cells.
    #[tactic(auto, using(crate::proofs::Near::near_read, crate::proofs::Near::near_places, crate::proofs::Near::near_fits))]
    fn near(&self, cell: &[u32], found: &mut [u32; 65536]) -> usize
        ensures held { take result found.new ≡ near_to self.now cell.now }
        ensures places { Places (take result found.new) (edges_in self.now.scene.work.now self.now.other.edges) }
        ensures fits { result ≤ length found.new }
    {
        self.edges()
            .gather(bounds2(self.scene.coords, cell), 0, found)
    }

    // What a cell comes to by those of the edges that stand at the places js. A cell near which there is none is copied.
    #[tactic(auto, using(crate::proofs::Copy::out_copied, crate::proofs::Copy::out_cut, crate::proofs::Outcomes::readable, crate::proofs::Outcomes::outcome_sound))]
    fn outcome(
        &self,
        js: &[u32],
        cell: Cell,
        runs: &mut [u32; 1024],
        stops: &mut [u32; 1024],
    ) -> Result<Counts, Refusal>
        requires { AllFew self.now.scene.work.now self.now.scene.regions (ring cell.corners.now)
            × Places js.now (edges_in self.now.scene.work.now self.now.other.edges) }
        ensures comes_to { cut result runs.new stops.new ≡ cut_as (outcome_of self.now js.now cell.entry.corners.now) runs.old stops.old }
        ensures readable { IfOk result (λ k. Readable k runs.new stops.new) }
    {
        if js.is_empty() {
            return cell.copy(runs, stops);
        }
        cut_cell(self.scene, self.other.edges, js, cell.corners, runs, stops)
    }

    // Places the kept pieces of a cell behind those that stand there; `found` is room for the places of the other mesh's edges.
    #[tactic(auto, using(crate::proofs::Outcomes::pieces_yielded))]
    fn overlay_cell(
        &self,
        cell: Cell,
        found: &mut [u32; 65536],
        lists: &mut PieceLists,
    ) -> Result<(), Refusal>
        requires { AllFew self.now.scene.work.now self.now.scene.regions (ring cell.corners.now) × (lists.old.placed.entries + 1024 < 2 ^ 32) }
        ensures placed { left result lists.new ≡ placed_on (yield_for self.now cell.entry.number cell.entry.corners.now) lists.old }
        ensures few { OnOk result (Few 1 lists.old.placed lists.new.placed) }
        ensures same_lists { SameLists lists.new lists.old }
    {
        let n = self.near(cell.corners, found);
        let mut runs = [0u32; 1024];
        let mut stops = [0u32; 1024];
        match self.outcome(&found[..n], cell, &mut runs, &mut stops) {
            Ok(counts) => {
                let tag = cell.tag(0 < n);
                lists.place_pieces(
                    self.keep,
                    self.cells(),
                    &runs[..counts.entries],
                    &stops[..counts.pieces],
                    tag,
                )
            }
            Err(why) => {
                lists.clear();
                Err(why)
            }
        }
    }

    // Cuts all cells of a mesh, runs of `own` by `stops`, the first of them with the number `first`, and places their kept pieces behind those
    // that stand there.
    fn cut_cells(
        &self,
        own: &[u32],
        stops: &[u32],
        first: usize,
        lists: &mut PieceLists,
    ) -> Result<(), Refusal>
        requires { CellsAsk self.now own.now stops.now first lists.old }
        ensures placed { left result lists.new ≡ placed_on (all_yield self.now own.now stops.now first) lists.old }
        ensures few { OnOk result (Few (length stops.now) lists.old.placed lists.new.placed) }
        ensures same_lists { SameLists lists.new lists.old }
    {
        let mut found = [0u32; 65536];
        for (i, corners) in Runs::new(own, stops).enumerate() {
            let cell = Cell {
                number: first + i,
                corners,
            };
            self.overlay_cell(cell, &mut found, lists)?;
        }
        Ok(())
    }
}

// ---- Both meshes

// Whether the operation with this number, which may name none, cuts the cutter's cells too.
fn cuts_both(op: u32) -> bool
    ensures { result ≡ cuts op the_cutter }
{
    matches!(
        Operation::try_from(op),
        Ok(Operation::Union | Operation::SymmetricDifference)
    )
}

// Cuts the cells of the subject, which end at `se`, and then those of the cutter, which end at `ce`, where the operation with this number, which may name
// none, cuts both meshes.
fn cut_both(
    op: u32,
    scene: SceneLists,
    x: Indexes,
    se: &[u32],
    ce: &[u32],
    lists: &mut PieceLists,
) -> Result<(), Refusal>
    requires { MeshesReady op scene.coords.now scene.work.now scene.regions x se.now ce.now × (lists.old.placed ≡ none_yet) }
    ensures placed { left result lists.new ≡ placed_on
        (meshes_yield op scene.entry.grid scene.entry.coords.now scene.entry.work.now scene.entry.regions se.now ce.now) lists.old }
    ensures few { OnOk result (Few (length se.now + length ce.now) none_yet lists.new.placed) }
    ensures same_lists { SameLists lists.new lists.old }
{
    let subject = Treatment {
        scene,
        keep: keep_of(op, false),
        other: scene.regions.cutter,
        index: x.cutter,
        ends: ce,
    };
    let own = scene.regions.subject.entries.part(scene.work);
    subject.cut_cells(own, se, 0, lists)?;
    if !cuts_both(op) {
        return Ok(());
    }
    let cutter = Treatment {
        scene,
        keep: keep_of(op, true),
        other: scene.regions.subject,
        index: x.subject,
        ends: se,
    };
    let own = scene.regions.cutter.entries.part(scene.work);
    cutter.cut_cells(own, ce, se.len(), lists)
}

// Cuts the cells of both meshes and places the kept pieces in the three lists, which a refusal leaves zero. They come one by one, since a struct of parts
// of a lent struct's lists isn't covered by the borrow checker; the operation by its number, since the promise is for each number, one that names none too.
pub fn cut_meshes(
    op: u32,
    scene: SceneLists,
    x: Indexes,
    se: &[u32],
    ce: &[u32],
    on: &mut [u32],
    oe: &mut [u32],
    ot: &mut [u32],
) -> Result<Listed, Refusal>
    requires { MeshesReady op scene.coords.now scene.work.now scene.regions x se.now ce.now × (length oe.old ≤ length ot.old) }
    ensures placed { placing result on.new oe.new ot.new
        ≡ placed_behind none_yet (meshes_yield op scene.entry.grid scene.entry.coords.now scene.entry.work.now scene.entry.regions se.now ce.now) on.old oe.old ot.old }
    ensures few { IfOk result (λ r. Few (length se.now + length ce.now) none_yet r) }
{
    let mut lists = PieceLists {
        corners: on,
        ends: oe,
        tags: ot,
        placed: Listed {
            count: 0,
            entries: 0,
        },
    };
    cut_both(op, scene, x, se, ce, &mut lists)?;
    Ok(lists.placed)
}
