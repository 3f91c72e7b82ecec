// One cell cut by the other mesh's edges near it. Edges are pairs of numbers, meetings five numbers each and chained by links: all of them stand in
// regions of the working list.
#![tactic(auto)]

ghost use Rattle.std.specs.Prelude.{◌≡◌, false, [], map, ℕ, ◌≤◌, ◌<◌, length, is_err};
ghost use Rattle.cutting.specs.Edges.{ring};
ghost use Rattle.cutting.specs.Cell.{cell_table, repeats};
ghost use Rattle.cutting.specs.Outcome.{refusal};
ghost use Rattle.cutting.specs.Lent.{flat_edges, pairs, pair_of};
ghost use Rattle.dart_table.specs.Table.{darts};
ghost use Rattle.outlines.specs.Meets.{edges_meet};
ghost use Rattle.regions.specs.Runs.{Within};
ghost use Rattle.cells.specs.Cells.{edges_in, Places, cut, cut_to, cut_as, cut_by, cut_cell, AllFew};

use corners::next_corner;
use dart_table::{DartTable, Full};
use dart_walk::{Counts, walk_dart_map};
use edge_nodes::SceneLists;
use outlines::{edges_meet, edges_repeat, lay_own_edge};
use refusals::Refusal;
use regions::Run;

// Makes the lists of corners and stops zero, as a refusal leaves them.
#[tactic(auto, unfolding(crate::specs::Cells::cut_as))]
pub fn clear(runs: &mut [u32], stops: &mut [u32])
    ensures { (code : ℕ) → cut_to (record { code = code; pieces = 0; entries = 0 }) runs.new stops.new ≡ cut_as (refusal code) runs.old stops.old }
{
    runs.fill(0);
    stops.fill(0);
}

// The own edges of a cell.
#[derive(Clone, Copy)]
pub(crate) struct OwnEdges<'a> {
    scene: SceneLists<'a>,
    cell: &'a [u32],
    ghost few: { AllFew scene.work.now scene.regions (ring cell.now) },
}

// The edges near a cell: those of `edges` at the places.
#[derive(Clone, Copy)]
pub(crate) struct NearEdges<'a> {
    scene: SceneLists<'a>,
    edges: &'a [[u32; 2]],
    places: &'a [u32],
    ghost few: { AllFew scene.work.now scene.regions (map pair_of edges.now) },
    ghost within: { Places places.now (map pair_of edges.now) },
}

impl<'a> OwnEdges<'a> {
    ghost use Rattle.cells.specs.Near.{outline_of, darts_at, outline_from, Held};

    // Makes the table of the cell's own edges with its outline, until one is refused.
    fn add_darts(&self, nodes: &mut [u32; 258], table: &mut DartTable) -> Result<(), Full>
        requires { table.old ≡ darts [] [] }
        ensures held { Held (cell_table self.now.scene.coords.now (outline_of self.now) []) result table.new.slots }
        ensures outlined { is_err result ≡ false → table.new.outline ≡ flat_edges (outline_of self.now) }
    {
        for (i, a) in self.cell.iter().enumerate() {
            let b = next_corner(self.cell, i);
            let count = self.scene.nodes_on(*a, b, nodes);
            table.add_own_edge(self.scene.coords, *a, b, &nodes[..count])?;
        }
        Ok(())
    }

    // The darts of the own edge at corner i, a flat list of pairs, which is written to `room`. i is a corner of the cell, no place in the lists.
    #[tactic(auto, using(crate::proofs::Cut::read_front, crate::proofs::Over::nodes_few))]
    fn lay<'b>(&self, i: usize, nodes: &mut [u32; 258], room: &'b mut [u32; 518]) -> &'b [u32]
        requires { i < length self.now.cell.now }
        ensures { result.now ≡ flat_edges (darts_at self.now i) }
    {
        let a = self.cell[i];
        let b = next_corner(self.cell, i);
        let count = self.scene.nodes_on(a, b, nodes);
        let entries = lay_own_edge(a, b, &nodes[..count], room);
        &room[..entries]
    }

    // Whether one of some darts, a flat list of pairs, is between the same two nodes as one of the own edges from edge k of the cell on.
    #[tactic(auto, using(crate::proofs::Over::meets_now, crate::proofs::Over::meets_on, crate::proofs::Over::meets_out))]
    fn meets_later(&self, k: usize, nodes: &mut [u32; 258], darts: &[u32]) -> bool
        ensures { result ≡ edges_meet (pairs darts.now) (outline_from self.now k) }
    {
        let mut room = [0u32; 518];
        // by index, as an edge leads from corner j to the next one
        for j in k..self.cell.len() {
            if edges_meet(darts, self.lay(j, nodes, &mut room)) {
                return true;
            }
        }
        false
    }

    // Whether the outline of the cell passes between the same two nodes twice or from a node to itself, where it has too many darts for the table: 19
    // comes before 10. Each own edge is compared with itself and with those after it; as such a cell is refused, this happens once in a call.
    #[tactic(auto, using(crate::proofs::Over::all_from, crate::proofs::Over::repeats_now, crate::proofs::Over::repeats_later, crate::proofs::Over::repeats_on, crate::proofs::Over::repeats_out))]
    fn outline_repeats(&self, nodes: &mut [u32; 258]) -> bool
        ensures { result ≡ repeats (outline_of self.now) }
    {
        let mut room = [0u32; 518];
        // by index, as in `meets_later`
        for i in 0..self.cell.len() {
            let darts = self.lay(i, nodes, &mut room);
            if edges_repeat(darts) {
                return true;
            }
            if self.meets_later(i + 1, nodes, darts) {
                return true;
            }
        }
        false
    }
}

impl<'a> NearEdges<'a> {
    ghost use Rattle.cells.specs.Near.{laid_near, Held};

    // Adds them to the table of the cell's own edges, until one is refused.
    #[tactic(auto, using(crate::proofs::Near::near_start, crate::proofs::Near::place_low, crate::proofs::Near::near_few, crate::proofs::Near::near_end))]
    fn add_darts(&self, nodes: &mut [u32; 258], table: &mut DartTable) -> Result<(), Full>
        requires { table.old.slots ≡ cell_table self.now.scene.coords.now (pairs table.old.outline) [] }
        ensures held { Held (cell_table self.now.scene.coords.now (pairs table.old.outline) (laid_near self.now)) result table.new.slots }
        ensures outline { table.new.outline ≡ table.old.outline }
    {
        for place in self.places {
            let [a, b] = self.edges[*place as usize];
            let count = self.scene.nodes_on(a, b, nodes);
            table.add_near_edge(self.scene.coords, a, b, &nodes[..count])?;
        }
        Ok(())
    }

    // Cuts a cell by the table of its own edges: adds the edges near it and walks. The part of refusal 11 that is looked at after a walk never fires
    // (cutting's `without_test`), so it is left out.
    // `nodes` is room for those of one edge. `runs` and `stops` come one by one: in a struct of the two each contract would have to say that they are the same lists. They are no arrays, as those
    // would ask callers for 1,024 entries and no more.
    #[tactic(auto, using(crate::proofs::Cut::too_many, crate::proofs::Cut::repeated))]
    fn cut(
        &self,
        nodes: &mut [u32; 258],
        table: &mut DartTable,
        runs: &mut [u32],
        stops: &mut [u32],
    ) -> Result<Counts, Refusal>
        requires { (table.old.slots ≡ cell_table self.now.scene.coords.now (pairs table.old.outline) []) × (1024 ≤ length runs.old) × (1024 ≤ length stops.old) }
        ensures { cut result runs.new stops.new ≡ cut_by (pairs table.old.outline)
            (cell_table self.now.scene.coords.now (pairs table.old.outline) (laid_near self.now)) runs.old stops.old }
    {
        if edges_repeat(table.outline()) {
            clear(runs, stops);
            return Err(Refusal::RepeatedEdge);
        }
        if self.add_darts(nodes, table).is_err() {
            clear(runs, stops);
            return Err(Refusal::FullTable);
        }
        walk_dart_map(table.slots(), table.outline(), runs, stops)
    }
}

// Cuts the cell by those of the edges near it that stand at the places js. The corners of the pieces go to the front of
// `runs`, where each ends among them to that of `stops`: lists, as above.
pub fn cut_cell(
    scene: SceneLists,
    edges: Run,
    js: &[u32],
    cell: &[u32],
    runs: &mut [u32],
    stops: &mut [u32],
) -> Result<Counts, Refusal>
    requires { AllFew scene.work.now scene.regions (ring cell.now) × Within edges (length scene.work.now)
        × AllFew scene.work.now scene.regions (edges_in scene.work.now edges)
        × Places js.now (edges_in scene.work.now edges) × (1024 ≤ length runs.old) × (1024 ≤ length stops.old) }
    ensures { cut result runs.new stops.new
        ≡ cut_cell scene.entry.grid scene.entry.coords.now scene.entry.work.now scene.entry.regions edges js.now cell.now runs.old stops.old }
{
    let own = OwnEdges { scene, cell };
    let near = NearEdges {
        scene,
        edges: edges.part(scene.work).as_chunks::<2>().0,
        places: js,
    };
    let mut nodes = [0u32; 258];
    let mut table = DartTable::new();
    if own.add_darts(&mut nodes, &mut table).is_err() {
        let why = if own.outline_repeats(&mut nodes) {
            Refusal::RepeatedEdge
        } else {
            Refusal::FullTable
        };
        clear(runs, stops);
        return Err(why);
    }
    near.cut(&mut nodes, &mut table, runs, stops)
}
