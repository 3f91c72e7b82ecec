// Keys of edges, and the chains that edges are put on by them.
#![tactic(auto)]

ghost use Rattle.std.specs.Prelude.{◌≡◌, ◌<◌, ◌≤◌};
ghost use Rattle.cutting.specs.Edges.{key, same_key};
ghost use Rattle.keys.specs.Chains.{chain_of, edge_chain};

// The two node numbers of an edge, smaller first.
#[derive(Clone, Copy, PartialEq, Eq, Debug)]
pub struct SortedKey {
    pub first: u32,
    pub second: u32,
    ghost sorted: { first ≤ second },
}

impl SortedKey {
    // The key of the edge between a and b.
    pub fn new(a: u32, b: u32) -> SortedKey
        ensures { (result.first, result.second) ≡ key (a, b) }
    {
        SortedKey {
            first: a.min(b),
            second: a.max(b),
        }
    }

    // The chain of the edges with this key, of h chains. A caller's h is the length of a list, above 0 by a clause: as a `NonZeroUsize` each call would make one first.
    // That the chain is below h each of these three functions says: a number with its bound would be a type that carries h besides.
    pub fn chain(self, h: usize) -> usize
        requires { 0 < h }
        ensures { (result ≡ chain_of h self.first) × (result < h) }
    {
        chain_of(self.first, h)
    }
}

// Whether the edges from a to b and from c to d have one key.
pub fn same_key(a: u32, b: u32, c: u32, d: u32) -> bool
    ensures { result ≡ same_key (a, b) (c, d) }
{
    SortedKey::new(a, b) == SortedKey::new(c, d)
}

// The chain of node v, of h chains. The public interface has the chain by a node, by a key and by an edge, each with its promise.
pub fn chain_of(v: u32, h: usize) -> usize
    requires { 0 < h }
    ensures { (result ≡ chain_of h v) × (result < h) }
{
    (v as usize).min(h - 1)
}

// The chain of the edge a, b.
pub fn edge_chain(h: usize, a: u32, b: u32) -> usize
    requires { 0 < h }
    ensures { (result ≡ edge_chain h (a, b)) × (result < h) }
{
    SortedKey::new(a, b).chain(h)
}
