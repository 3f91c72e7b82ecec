// Both meshes under one numbering, in the working list (document 01, modules 4 and 5). Regions, one behind the other: the numbers of the cutter's
// nodes; the cutter's node entries under those numbers; the subject's node entries; the subject's edges, with room for two numbers an entry; the
// cutter's edges, likewise; their index; zeros, where the edges had their chains. Lines are edges as they are: theirs are the cutter's entries.
ghost use Rattle.std.specs.Prelude.{◌≡◌, false, [], ◌++◌, cond, map, ◌+◌, ◌≤◌, length, get_or};
ghost use Rattle.lists.specs.Regions.{put, zeros};
ghost use Rattle.cutting.specs.Lent.{flat_edges};
ghost use Rattle.snap.specs.Steps.{Below};
ghost use Rattle.finding.specs.Nets.{plain_of, Fit, NetRoom, EdgesAsk, edges_from, with_edges, edges_of, nets_of, edged, netted};

use indexing::index_run;
use lists::copy_at;
use neighbours::compute_descending;
use regions::{MeshRuns, Run};
use snap::duplicates_from;
use views::MeshView;

// Where the edges and the node entries of both meshes stand, and the index of the cutter's edges; where there is room behind them. Runs, not slices: the list is
// still written where they are used, and the cells are told them (`Regions`).
#[derive(Clone, Copy)]
pub struct NetPlaces {
    pub subject: MeshRuns,
    pub cutter: MeshRuns,
    pub index: Run,
    pub behind: usize,
}

// The entries under the numbers that w begins with, from `at` on.
#[tactic(auto, using(crate::proofs::Welded::start))]
fn renumber(cn: &[u32], w: &mut [u32], at: usize)
    requires { Below at cn.now × (at + length cn.now ≤ length w.old) }
    ensures { w.new ≡ put w.old at (map (λ n. get_or w.old n 0) cn.now) }
{
    // By index: after a loop over a zipped `iter_mut` a proof knows no element. What is read lies before `at` (`Below`); to cut the list there would spare no index.
    for (i, &k) in cn.iter().enumerate() {
        w[at + i] = w[k as usize];
    }
}

// Writes the edges of the cells that end at `cells`, whose node numbers are the entries, from `from` on. Answers where they stand. Heads and nexts are zero then.
// By places among the nets, which `NetPlaces` tells the others; the part before `from` is read meanwhile. Heads and nexts come apart, as `compute_descending`
// takes them.
fn mesh_edges(
    w: &mut [u32],
    cells: &[u32],
    entries: Run,
    from: usize,
    heads: &mut [u32],
    nexts: &mut [u32],
) -> MeshRuns
    requires { EdgesAsk w.old cells.now entries from (length heads.old) (length nexts.old) }
    ensures { (result ≡ with_edges entries from (edges_from w.old cells.now entries)) × (w.new ≡ put w.old from (flat_edges (edges_from w.old cells.now entries)))
        × (heads.new ≡ zeros (length heads.old)) × (nexts.new ≡ zeros (length nexts.old)) }
{
    let (before, edges) = w.split_at_mut(from);
    let count = compute_descending(entries.part(before), cells, edges, heads, nexts);
    let end = from + 2 * count;
    MeshRuns {
        edges: Run { from, end },
        entries,
    }
}

// The same of the cutter; lines are edges as they are.
fn cutter_edges(
    lines: bool,
    w: &mut [u32],
    cells: &[u32],
    entries: Run,
    from: usize,
    heads: &mut [u32],
    nexts: &mut [u32],
) -> MeshRuns
    requires { EdgesAsk w.old cells.now entries from (length heads.old) (length nexts.old) × (heads.old ≡ zeros (length heads.old)) × (nexts.old ≡ zeros (length nexts.old)) }
    ensures { (result ≡ cond lines (record { edges = entries; entries = entries }) (with_edges entries from (edges_from w.old cells.now entries)))
        × (w.new ≡ put w.old from (cond lines [] (flat_edges (edges_from w.old cells.now entries))))
        × (heads.new ≡ zeros (length heads.old)) × (nexts.new ≡ zeros (length nexts.old)) }
{
    if lines {
        return MeshRuns {
            edges: entries,
            entries,
        };
    }
    mesh_edges(w, cells, entries, from, heads, nexts)
}

// All but the index, which has its room yet.
fn edges(lines: bool, s: &MeshView, c: &MeshView, w: &mut [u32]) -> NetPlaces
    requires { Fit false (plain_of s.now) × Fit lines (plain_of c.now)
        × NetRoom 0 (plain_of s.now) (plain_of c.now) (length w.old) }
    ensures { (result ≡ edges_of lines (plain_of s.now) (plain_of c.now))
        × (w.new ≡ edged lines (plain_of s.now) (plain_of c.now) w.old) }
{
    let nodes = c.coords.len() / 2;
    let copied = nodes + c.nodes.len();
    let from = copied + s.nodes.len();
    let at = from + 2 * s.nodes.len();
    let index = at + 2 * c.nodes.len();
    let behind = index + (4 * c.nodes.len() + 12);
    duplicates_from(s, c, w);
    renumber(c.nodes, w, nodes);
    copy_at(w, copied, s.nodes);
    // The edges are on chains while they are written, where the meetings will stand.
    let (nets, rest) = w.split_at_mut(behind);
    let (heads, rest) = rest.split_at_mut(s.coords.len() / 2 + nodes + 1);
    let (nexts, _) = rest.split_at_mut(s.nodes.len() + c.nodes.len());
    let entries = Run {
        from: copied,
        end: from,
    };
    let subject = mesh_edges(nets, s.ends, entries, from, heads, nexts);
    let entries = Run {
        from: nodes,
        end: copied,
    };
    let cutter = cutter_edges(lines, nets, c.ends, entries, at, heads, nexts);
    NetPlaces {
        subject,
        cutter,
        index: Run {
            from: index,
            end: behind,
        },
        behind,
    }
}

// The regions of both meshes. `coords` are the coordinates of both.
pub(crate) fn nets(
    lines: bool,
    coords: &[f64],
    s: &MeshView,
    c: &MeshView,
    w: &mut [u32],
) -> NetPlaces
    requires { Fit false (plain_of s.now) × Fit lines (plain_of c.now)
        × NetRoom 0 (plain_of s.now) (plain_of c.now) (length w.old) × (coords.now ≡ s.now.coords.now ++ c.now.coords.now) }
    ensures { (result ≡ nets_of lines (plain_of s.now) (plain_of c.now))
        × (w.new ≡ netted lines (plain_of s.now) (plain_of c.now) w.old) }
{
    let n = edges(lines, s, c, w);
    let index = index_run(coords, w, n.cutter.edges, &[], n.index.from);
    NetPlaces { index, ..n }
}
