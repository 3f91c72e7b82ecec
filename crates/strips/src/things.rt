// The things: runs of a list of node numbers, by their ends, or pairs where there are no ends. Pairs are no `Option` of ends: a mesh without cells is such
// a list too, and the definitions take one (`thing_count`), so that it would be a second word for an empty list.
ghost use Rattle.std.specs.Prelude.{◌≡◌, ◌≤◌, ◌<◌, length, get_or};
ghost use Rattle.lists.specs.Regions.{run};
ghost use Rattle.entry.specs.Mesh.{prior, cell_size, Rising};
ghost use Rattle.strips.specs.Things.{thing_count, start_of, thing_box};

use rules::Bounds;
use spatial_index::{bounds2, edge_bounds};

#[derive(Clone, Copy)]
pub struct Things<'a> {
    pub coords: &'a [f64],
    pub nodes: &'a [u32],
    pub ends: &'a [u32],
    ghost rising: { Rising ends.now (length nodes.now) },
    ghost few: { thing_count nodes.now ends.now ≤ 65536 },
}

// The number at i, or 0.
pub(crate) fn number_at(xs: &[u32], i: usize) -> u32
    ensures { result ≡ get_or xs.now i 0 }
{
    xs.get(i).copied().unwrap_or(0)
}

impl<'a> Things<'a> {
    // How many there are.
    #[tactic(auto, using(crate::proofs::PairsOrRuns::count_pairs, crate::proofs::PairsOrRuns::count_runs))]
    pub(crate) fn count(&self) -> usize
        ensures { result ≡ thing_count self.now.nodes.now self.now.ends.now }
    {
        if self.ends.is_empty() {
            self.nodes.len() / 2
        } else {
            self.ends.len()
        }
    }

    // Where run j starts.
    #[tactic(auto, using(crate::proofs::PairsOrRuns::prior_first, crate::proofs::PairsOrRuns::prior_later))]
    fn prior(&self, j: usize) -> usize
        ensures { result ≡ prior self.now.ends.now j }
    {
        if j == 0 {
            0
        } else {
            number_at(self.ends, j - 1) as usize
        }
    }

    // Where thing j starts.
    #[tactic(auto, using(crate::proofs::PairsOrRuns::start_pairs, crate::proofs::PairsOrRuns::start_runs))]
    pub(crate) fn start(&self, j: usize) -> usize
        requires { j ≤ 65536 }
        ensures { result ≡ start_of self.now.ends.now j }
    {
        if self.ends.is_empty() {
            2 * j
        } else {
            self.prior(j)
        }
    }

    // The node numbers of run j; none where there is no such run.
    #[tactic(auto, unfolding(lists::specs::Regions::run))]
    pub fn run(&self, j: usize) -> &'a [u32]
        ensures { result.now ≡ run self.now.nodes.now (prior self.now.ends.now j) (cell_size self.now.ends.now j) }
    {
        let end = number_at(self.ends, j) as usize;
        self.nodes.get(self.prior(j)..end).unwrap_or(&[])
    }

    // The box of thing j.
    #[tactic(auto, using(crate::proofs::PairsOrRuns::count_pairs, crate::proofs::PairsOrRuns::count_runs, crate::proofs::PairsOrRuns::box_pairs, crate::proofs::PairsOrRuns::box_runs))]
    pub(crate) fn bounds(&self, j: usize) -> Bounds
        requires { j < thing_count self.now.nodes.now self.now.ends.now }
        ensures { result ≡ thing_box self.now.coords.now self.now.nodes.now self.now.ends.now j }
    {
        let nodes = self.nodes;
        if self.ends.is_empty() {
            return edge_bounds(self.coords, nodes[2 * j], nodes[2 * j + 1]);
        }
        bounds2(self.coords, self.run(j))
    }
}
