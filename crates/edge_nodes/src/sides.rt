// The meetings by the edges of one mesh: their keys, their nodes, and how they are chained.
ghost use Rattle.std.specs.Prelude.{◌≡◌, ◌+◌, ◌*◌, ◌/◌, ◌≤◌, ◌<◌, length, get_or};
ghost use Rattle.cutting.specs.Edges.{edge_at, key};
ghost use Rattle.cutting.specs.Lent.{pairs};
ghost use Rattle.edge_nodes.specs.Chained.{number, edge_of, heads_in, nexts_in};
ghost use Rattle.edge_nodes.specs.Lent.{met_nodes, under_at};

use keys::SortedKey;

// A meeting has an edge of either mesh: the first two of its numbers.
#[derive(Clone, Copy)]
pub(crate) enum Side {
    Subject = 0,
    Cutter = 1,
}

// The meetings by one side: its edges, pairs in a flat list, and all meetings, five numbers each. Flat, as they stand in the working list and in the
// definitions; a meeting as an array of five would be read by place too, since how many nodes it has is one of its numbers.
#[derive(Clone, Copy)]
pub(crate) struct Meetings<'a> {
    pub edges: &'a [u32],
    pub met: &'a [u32],
    pub side: Side,
}

// The key of edge e; beyond the list that of an edge from 0 to 0.
fn key_at(edges: &[u32], e: usize) -> SortedKey
    ensures { edge_of result ≡ key (edge_at (pairs edges.now) e) }
{
    let [a, b] = edges.as_chunks::<2>().0.get(e).copied().unwrap_or([0, 0]);
    SortedKey::new(a, b)
}

impl<'a> Meetings<'a> {
    // The key of meeting q's edge. That q is a meeting each asks for itself: a type of such numbers would carry the list beside each.
    fn key(&self, q: usize) -> SortedKey
        requires { q < length self.now.met.now / 5 }
        ensures { edge_of result ≡ key (edge_at (pairs self.now.edges.now) (get_or self.now.met.now (5 * q + number self.now.side) 0)) }
    {
        key_at(self.edges, self.met[5 * q + self.side as usize] as usize)
    }

    // Its nodes: one or two, or none.
    #[tactic(auto, using(crate::proofs::Under::nodes_read))]
    fn nodes(&self, q: usize) -> &'a [u32]
        requires { q < length self.now.met.now / 5 }
        ensures { result.now ≡ met_nodes self.now.met.now q }
    {
        let met = self.met;
        let count = met[5 * q + 2] as usize;
        let from = 5 * q + 3;
        let end = from + count.min(2);
        &met[from..end]
    }

    // The nodes that meeting q collects under a key: its own where its edge has this key.
    #[tactic(auto, using(crate::proofs::Under::keys_compared, crate::proofs::Under::under_it, crate::proofs::Under::not_under))]
    pub(crate) fn under(&self, key: SortedKey, q: usize) -> &'a [u32]
        requires { q < length self.now.met.now / 5 }
        ensures { result.now ≡ under_at (pairs self.now.edges.now) self.now.met.now (number self.now.side) (edge_of key) q }
    {
        if self.key(q) == key {
            self.nodes(q)
        } else {
            &[]
        }
    }

    // Puts all meetings on chains, each before those behind it.
    #[tactic(auto, using(crate::proofs::Linking::link_turn, crate::proofs::Linking::link_heads, crate::proofs::Linking::link_nexts))]
    pub(crate) fn link(&self, heads: &mut [u32], nexts: &mut [u32])
        requires { (0 < length heads.old) × (length nexts.old ≡ length self.now.met.now / 5) × (length nexts.old ≤ 65536) }
        ensures head { heads.new ≡ heads_in (length heads.old) self.now }
        ensures next { nexts.new ≡ nexts_in (length heads.old) self.now }
    {
        let n = nexts.len();
        heads.fill(n as u32);
        // by index, as the chains hold the meetings' numbers
        for q in (0..n).rev() {
            let c = self.key(q).chain(heads.len());
            nexts[q] = heads[c];
            heads[c] = q as u32;
        }
    }
}
