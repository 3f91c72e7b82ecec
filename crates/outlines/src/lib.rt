// An outline's darts in flat lists of pairs, and whether edges of such lists are between the same two nodes, in either direction.
#![tactic(auto)]

ghost use Rattle.std.specs.Prelude.{◌≡◌, map, ◌+◌, ◌*◌, ◌≤◌, length};
ghost use Rattle.std.specs.List.{list_any};
ghost use Rattle.lists.specs.Regions.{front};
ghost use Rattle.cutting.specs.Edges.{same_key, reversed_if};
ghost use Rattle.cutting.specs.Cell.{windows, own_darts, repeats};
ghost use Rattle.cutting.specs.Lent.{flat_edges, pairs, pair_of};
ghost use Rattle.outlines.specs.Meets.{edges_meet};

use keys::same_key;

// Writes the darts along the nodes, each the other way where `inv` is true, to the front of a flat list of pairs. Answers how many entries they take: a part
// handed back would be a `&mut` whose clause says what the list ends as.
#[tactic(auto, using(crate::proofs::Flat::laying_start))]
fn lay_along(inv: bool, nodes: &[u32], darts: &mut [u32]) -> usize
    requires { 2 * length nodes.now ≤ length darts.old + 2 }
    ensures { (result ≡ 2 * length (map (reversed_if inv) (windows nodes.now)))
        × (darts.new ≡ front darts.old (flat_edges (map (reversed_if inv) (windows nodes.now)))) }
{
    // The darts are written by index: of a list written through `chunks_exact_mut` a proof knows the length alone. `k` is the answer too, which `enumerate` would
    // leave to be said once more.
    let mut k = 0;
    for pair in nodes.windows(2) {
        // as dart_table's `turned`: a public function and its two edits would be more than the line
        let (a, b) = if inv {
            (pair[1], pair[0])
        } else {
            (pair[0], pair[1])
        };
        darts[k] = a;
        darts[k + 1] = b;
        k += 2;
    }
    k
}

// The same for the cell's own edge from a to b, by its sorted nodes (none: the edge itself).
#[tactic(auto, using(crate::proofs::Flat::own_edge, crate::proofs::Flat::own_nodes))]
pub fn lay_own_edge(a: u32, b: u32, nodes: &[u32], darts: &mut [u32]) -> usize
    requires { 2 * length nodes.now + 2 ≤ length darts.old }
    ensures { (result ≡ 2 * length (own_darts (record { edge = (a, b); nodes = nodes.now })))
        × (darts.new ≡ front darts.old (flat_edges (own_darts (record { edge = (a, b); nodes = nodes.now })))) }
{
    match nodes.first() {
        None => lay_along(b == a, &[a, b], darts),
        Some(first) => lay_along(b == *first, nodes, darts),
    }
}

// Whether one of the edges has the key of the edge from a to b.
fn is_among(a: u32, b: u32, edges: &[[u32; 2]]) -> bool
    ensures { result ≡ list_any (λ e. same_key (pair_of e) (a, b)) edges.now }
{
    edges.iter().any(|[p, q]| same_key(*p, *q, a, b))
}

// Whether some edge has the key of one of the others.
fn any_among(edges: &[[u32; 2]], others: &[[u32; 2]]) -> bool
    ensures { result ≡ list_any (λ x. list_any (λ y. same_key (pair_of y) (pair_of x)) others.now) edges.now }
{
    edges.iter().any(|[a, b]| is_among(*a, *b, others))
}

// Whether a flat list of pairs passes between the same two nodes twice or from a node to itself.
#[tactic(auto, using(crate::proofs::Flat::all_said, crate::proofs::Flat::repeats_loop, crate::proofs::Flat::repeats_on, crate::proofs::Flat::repeats_none))]
pub fn edges_repeat(edges: &[u32]) -> bool
    ensures { result ≡ repeats (pairs edges.now) }
{
    let (mut rest, _) = edges.as_chunks::<2>();
    while let Some(([a, b], later)) = rest.split_first() {
        if a == b || is_among(*a, *b, later) {
            return true;
        }
        rest = later;
    }
    false
}

// Whether two flat lists of pairs have an edge between the same two nodes.
#[tactic(auto, using(crate::proofs::Flat::meets_pairs))]
pub fn edges_meet(edges: &[u32], others: &[u32]) -> bool
    ensures { result ≡ edges_meet (pairs edges.now) (pairs others.now) }
{
    any_among(edges.as_chunks::<2>().0, others.as_chunks::<2>().0)
}
