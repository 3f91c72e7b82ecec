// The indexes of both meshes' edges and cells, behind the links of the working list: by them the cells find what is near.
#![tactic(auto)]

ghost use Rattle.std.specs.Prelude.{◌≡◌, ◌+◌, length};
ghost use Rattle.lists.specs.Regions.{put};
ghost use Rattle.regions.specs.Runs.{run_in};
ghost use Rattle.strips.specs.Index.{index_of};
ghost use Rattle.indexing.specs.Indexes.{mesh_index, mesh_index_at, indexes, indexes_at, RunAsks, MeshAsks, Asks};

use regions::{Indexes, MeshIndex, MeshRuns, Regions, Run};
use strips::Things;

// That of the things of a run, which end at `ends`, from `at` on: where it stands. By places of the working list: its readers are told them (`Indexes`, `NetPlaces`),
// and the things stand in the part before.
pub fn index_run(coords: &[f64], w: &mut [u32], r: Run, ends: &[u32], at: usize) -> Run
    requires { RunAsks w.old r ends.now at }
    ensures { (result ≡ record { from = at; end = at + length (index_of coords.now (run_in w.old r) ends.now) })
        × (w.new ≡ put w.old at (index_of coords.now (run_in w.old r) ends.now)) }
{
    let (before, ix) = w.split_at_mut(at);
    let nodes = r.part(before);
    let things = Things {
        coords,
        nodes,
        ends,
    };
    let size = things.build(ix);
    Run {
        from: at,
        end: at + size,
    }
}

// Those of one mesh, from `at` on: of its edges, and behind it of its cells, which end at `ends`.
#[tactic(auto, using(crate::proofs::Written::edges_asked))]
fn index_mesh(coords: &[f64], w: &mut [u32], m: MeshRuns, ends: &[u32], at: usize) -> MeshIndex
    requires { MeshAsks w.old m ends.now at }
    ensures { (result ≡ mesh_index_at coords.now w.old m ends.now at)
        × (w.new ≡ put w.old at (mesh_index coords.now w.old m ends.now)) }
{
    let edges = index_run(coords, w, m.edges, &ends[..0], at);
    let cells = index_run(coords, w, m.entries, ends, edges.end);
    MeshIndex { edges, cells }
}

// Those of both meshes, behind the links; the cells end at se and at ce, which are the meshes' own lists, as the coordinates are.
pub fn index_meshes(coords: &[f64], w: &mut [u32], g: Regions, se: &[u32], ce: &[u32]) -> Indexes
    requires { Asks w.old g se.now ce.now }
    ensures { (result ≡ indexes_at coords.now w.old g se.now ce.now)
        × (w.new ≡ put w.old g.links.end (indexes coords.now w.old g se.now ce.now)) }
{
    let subject = index_mesh(coords, w, g.subject, se, g.links.end);
    let cutter = index_mesh(coords, w, g.cutter, ce, subject.cells.end);
    Indexes { subject, cutter }
}
