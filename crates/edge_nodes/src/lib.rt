// The nodes on an edge (document 01, module 7): those that meetings collected under its key, by their projections.
// Edges are flat lists of pairs. A meeting takes five numbers: its subject edge, its cutter edge, how many nodes it has (1 or 2), and these.
#![tactic(auto)]

mod chains;
mod nodes;
mod sides;

ghost use Rattle.std.specs.Prelude.{◌≡◌, ◌+◌, ◌*◌, ◌/◌, ◌≤◌, ltb, length};
ghost use Rattle.std.specs.List.{list_any};
ghost use Rattle.lists.specs.Search.{has};
ghost use Rattle.lists.specs.Sort.{sort_onto};
ghost use Rattle.cutting.specs.Edges.{key};
ghost use Rattle.cutting.specs.Lent.{pairs, pair_of};
ghost use Rattle.edge_nodes.specs.Chained.{edge_of};
ghost use Rattle.edge_nodes.specs.Lent.{all_placed, stands_before, under_in, most_nodes, crowded_at, nodes_on, Few};
ghost use Rattle.lists.specs.Regions.{FrontIs};

use chains::Chains;
pub use chains::{LinkedMeetings, link_meetings};
use keys::SortedKey;
use nodes::{Nodes, dedup, place_first};
use regions::Regions;

impl<'a> Chains<'a> {
    // Puts the nodes that the meetings collect under the key in their places. Answers how many they collect, those too that do not go in.
    #[tactic(auto, using(crate::proofs::Under::no_part_left))]
    fn collect(&self, grid: Option<u32>, coords: &[f64], key: SortedKey, nodes: &mut Nodes) -> usize
        requires { length nodes.old + length (under_in self.now.meetings (edge_of key)) ≤ 257 }
        ensures count { result ≡ length (under_in self.now.meetings (edge_of key)) }
        ensures placed { nodes.new ≡ sort_onto stands_before nodes.old (all_placed grid coords.now (edge_of key) (under_in self.now.meetings (edge_of key))) }
    {
        let mut n: usize = 0;
        for part in self.under(key) {
            nodes.insert_all(grid, coords, key, part);
            n += part.len();
        }
        n
    }

    // How many these are: two for each meeting at most.
    #[tactic(auto, using(crate::proofs::Count::under_bounded))]
    fn count(self, key: SortedKey) -> usize
        ensures { (result ≡ length (under_in self.entry.meetings (edge_of key))) × (2 * result ≤ length self.entry.meetings.met.now) }
    {
        let mut n: usize = 0;
        for part in self.under(key) {
            n += part.len();
        }
        n
    }
}

impl<'a> LinkedMeetings<'a> {
    ghost use Rattle.edge_nodes.specs.Sides.{collected_under, sorted_under};

    // Writes the sorted nodes of the key to the front of `out`. Answers how many they are.
    #[tactic(auto, using(lists::proofs::Sort::length_insert, crate::proofs::Count::length_collected, crate::proofs::Sorted::some_under, crate::proofs::Sorted::second_fits))]
    fn sorted_nodes(
        &self,
        grid: Option<u32>,
        coords: &[f64],
        key: SortedKey,
        out: &mut [u32],
    ) -> usize
        requires { (length (collected_under self.now (edge_of key)) ≤ 256) × (258 ≤ length out.old) }
        ensures { FrontIs (sorted_under grid coords.now self.now (edge_of key)) out.old result out.new }
    {
        let (by_subject, by_cutter) = self.chains();
        let mut nodes = Nodes::new();
        nodes.insert(place_first(grid, coords, key));
        let by_subjects = by_subject.collect(grid, coords, key, &mut nodes);
        let by_cutters = by_cutter.collect(grid, coords, key, &mut nodes);
        if by_subjects + by_cutters == 0 {
            return 0;
        }
        dedup(nodes.items(), key.second, out)
    }

    // Whether over 256 nodes are collected under the key.
    #[tactic(auto, using(crate::proofs::Count::length_collected))]
    fn is_crowded(&self, key: SortedKey) -> bool
        ensures { result ≡ ltb most_nodes (length (collected_under self.now (edge_of key))) }
    {
        let (subject, cutter) = self.chains();
        256 < subject.count(key) + cutter.count(key)
    }

    // Whether they are under the key of one of the edges.
    fn any_crowded(&self, edges: &[[u32; 2]]) -> bool
        ensures { result ≡ list_any (λ e. ltb most_nodes (length (collected_under self.now (key (pair_of e))))) edges.now }
    {
        edges
            .iter()
            .any(|[a, b]| self.is_crowded(SortedKey::new(*a, *b)))
    }

    // The same of a flat list of edges (refusal 9).
    #[tactic(auto, using(crate::proofs::Crowded::crowded_pairs))]
    pub fn overfull(&self, edges: &[u32]) -> bool
        ensures { result ≡ has (crowded_at (pairs edges.now) (pairs self.now.subject.now) (pairs self.now.cutter.now) self.now.met.now) (length edges.now / 2) }
    {
        self.any_crowded(edges.as_chunks::<2>().0)
    }
}

// Where edges and meetings are found: the grid, the coordinates of all nodes, and the working list, which has edges, meetings and links in its regions.
#[derive(Clone, Copy)]
pub struct SceneLists<'a> {
    pub grid: Option<u32>,
    pub coords: &'a [f64],
    pub work: &'a [u32],
    pub regions: Regions,
}

impl<'a> SceneLists<'a> {
    // Writes the sorted nodes of the key of a, b to the front of `out`. Answers how many they are. That is what is promised, of any list long enough, so no `ArrayVec`
    // is given back.
    #[tactic(auto, using(crate::proofs::InRegions::lists_few))]
    pub fn nodes_on(&self, a: u32, b: u32, out: &mut [u32]) -> usize
        requires { Few self.now.work.now self.now.regions (a, b) × (258 ≤ length out.old) }
        ensures { FrontIs (nodes_on self.now.grid self.now.coords.now self.now.work.now self.now.regions (a, b)) out.old result out.new }
    {
        let g = self.regions;
        let meetings = LinkedMeetings {
            subject: g.subject.edges.part(self.work),
            cutter: g.cutter.edges.part(self.work),
            met: g.met.part(self.work),
            links: g.links.part(self.work),
        };
        meetings.sorted_nodes(self.grid, self.coords, SortedKey::new(a, b), out)
    }
}
