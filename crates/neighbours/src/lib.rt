// The edges of cells (document 01, module 5), two numbers each. While they are written, they are on chains in two more lists, so that one with the same key
// is found without a scan of all.
#![tactic(auto)]

ghost use Rattle.std.specs.Prelude.{◌≡◌, [], ◌*◌, ◌≤◌, ◌<◌, length, take};
ghost use Rattle.lists.specs.Search.{has};
ghost use Rattle.lists.specs.Regions.{front, zeros};
ghost use Rattle.cutting.specs.Edges.{edge_at, same_key, ring};
ghost use Rattle.cutting.specs.Lent.{pairs, flat_edges};
ghost use Rattle.entry.specs.Mesh.{mesh, Rising};
ghost use Rattle.rules.specs.Mesh.{cells_of};
ghost use Rattle.rules.specs.Neighbours.{added, added_all, compute_descending};
ghost use Rattle.neighbours.specs.Chains.{Chained};

use corners::next_corner;
use keys::SortedKey;
use lists::Runs;

// Edges at the front of a list, how many they are, and their chains: the last edge of each, and for each edge the one before it. Links are numbers, 1 and
// that of an edge or 0 for none: the lists are lent, in fixed memory. Each method promises that they are the same lists, so that who lent them knows what they
// come to hold.
#[derive(Drop)]
struct EdgeLists<'a> {
    edges: &'a mut [u32],
    count: usize,
    heads: &'a mut [u32],
    nexts: &'a mut [u32],
    ghost some: { 0 < length heads.now },
    ghost chained: { Chained (pairs (take (2 * count) edges.now)) heads.now nexts.now },
    ghost fits: { 2 * count ≤ length edges.now },
    ghost linked: { count ≤ length nexts.now },
}

// The edges on one chain that are still to come, from the last to the first. `at` is a link, as in the lists.
// edge_nodes' `Chain` goes along links too: one iterator for both would promise the numbers on a chain alone, and each would have to say besides what they number.
#[derive(Drop)]
struct Chain<'b, 'a> {
    lists: &'b EdgeLists<'a>,
    at: usize,
    ghost within: { at ≤ lists.now.count },
}

impl<'a> EdgeLists<'a> {
    ghost use Rattle.neighbours.specs.Held.{edges_in, Room, Holds};
    ghost use Rattle.neighbours.specs.Chain.{on_key_chain, chain_left};

    // Edge i.
    #[tactic(auto, using(crate::proofs::Walk::edge_read))]
    fn edge(&self, i: usize) -> (u32, u32)
        requires { i < self.now.count }
        ensures { result ≡ edge_at (edges_in self.now) i }
    {
        let [a, b] = self.edges.as_chunks::<2>().0[i];
        (a, b)
    }

    // The edges on the key's chain: no others have the key.
    #[tactic(auto, using(crate::proofs::Walk::starts_within, crate::proofs::Walk::starts_with_all))]
    fn chain(&self, key: SortedKey) -> Chain<'_, 'a>
        ensures { chain_left result ≡ on_key_chain self.now key }
    {
        Chain {
            lists: self,
            at: self.heads[key.chain(self.heads.len())] as usize,
        }
    }

    // Whether some edge has the key.
    fn has_key(&self, key: SortedKey) -> bool
        ensures { result ≡ has (λ i. same_key (edge_at (edges_in self.now) i) (key.first, key.second)) (length (edges_in self.now)) }
    {
        self.chain(key).any(|(x, y)| SortedKey::new(x, y) == key)
    }

    // Adds the edge a, b, unless one has its key.
    fn add_edge(&mut self, a: u32, b: u32)
        requires { Room 1 self.old }
        ensures { Holds (added (edges_in self.old) (a, b)) self.old self.new }
    {
        let key = SortedKey::new(a, b);
        if self.has_key(key) {
            return;
        }
        let k = self.count;
        let c = key.chain(self.heads.len());
        let last = self.heads[c];
        self.edges[2 * k] = a;
        self.edges[2 * k + 1] = b;
        self.nexts[k] = last;
        self.heads[c] = (k + 1) as u32;
        self.count = k + 1;
    }

    // Adds the edges of a cell.
    fn add_cell(&mut self, cell: &[u32])
        requires { Room (length cell.now) self.old }
        ensures { Holds (added_all (edges_in self.old) (ring cell.now)) self.old self.new }
    {
        for (i, a) in cell.iter().enumerate() {
            self.add_edge(*a, next_corner(cell, i));
        }
    }

    // Adds the edges of all cells to none.
    fn add_cells(&mut self, nodes: &[u32], cells: &[u32])
        requires none { self.old.count ≡ 0 }
        requires room { Room (length nodes.now) self.old }
        requires rising { Rising cells.now (length nodes.now) }
        ensures { Holds (compute_descending (cells_of (mesh [] [] nodes.now cells.now [] []))) self.old self.new }
    {
        for cell in Runs::new(nodes, cells) {
            self.add_cell(cell);
        }
    }
}

impl<'b, 'a> Iterator for Chain<'b, 'a> {
    ghost use Rattle.std.specs.Iterator.{YieldsFirst, item_count};
    ghost use Rattle.neighbours.specs.Chain.{chain_left};

    type Item = (u32, u32);

    ghost next_gives = { YieldsFirst chain_left };

    ghost remaining = { item_count chain_left };

    #[tactic(auto, using(crate::proofs::Walk::link_within, crate::proofs::Walk::one_given), unfolding(crate::specs::Chains::edges_below))]
    fn next(&mut self) -> Option<(u32, u32)> {
        let i = self.at.checked_sub(1)?;
        self.at = self.lists.nexts[i] as usize;
        Some(self.lists.edge(i))
    }
}

// Writes the edges of all cells, whose node numbers are `nodes`, to the front of `edges`. Answers how many there are. `heads` and `nexts` are zero then: as
// many heads as nodes and one keep the search for a key short, and any other number gives the same edges. Lists one by one, since the caller cuts them from its
// own; that two of them are left zero is a promise about what is lent, which no type of theirs can make.
#[tactic(auto, using(crate::proofs::Edges::few_edges))]
pub fn compute_descending(
    nodes: &[u32],
    cells: &[u32],
    edges: &mut [u32],
    heads: &mut [u32],
    nexts: &mut [u32],
) -> usize
    requires { (2 * length nodes.now ≤ length edges.old) × (length nodes.now ≤ length nexts.old) × (length nodes.now ≤ 65536) × (0 < length heads.old)
        × (Rising cells.now (length nodes.now)) }
    ensures count { result ≡ length (compute_descending (cells_of (mesh [] [] nodes.now cells.now [] []))) }
    ensures written { edges.new ≡ front edges.old (flat_edges (compute_descending (cells_of (mesh [] [] nodes.now cells.now [] [])))) }
    ensures clear_heads { heads.new ≡ zeros (length heads.old) }
    ensures clear_nexts { nexts.new ≡ zeros (length nexts.old) }
    ensures few { result ≤ length nodes.now }
{
    heads.fill(0);
    nexts.fill(0);
    let mut lists = EdgeLists {
        edges,
        count: 0,
        heads,
        nexts,
    };
    lists.add_cells(nodes, cells);
    let count = lists.count;
    heads.fill(0);
    nexts.fill(0);
    count
}
