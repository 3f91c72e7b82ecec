// Refusals 5 and 6: the node numbers, and no node twice in one cell or line.
ghost use Rattle.std.specs.Prelude.{◌≡◌};
ghost use Rattle.entry.specs.Refused.{nodes_ok, cells_ok, cell_ok};

use lists::Runs;

#[tactic(auto, unfolding(crate::specs::Refused::nodes_ok))]
pub(crate) fn nodes_ok(nodes: &[u32], n: usize) -> bool
    ensures { result ≡ nodes_ok nodes.now n }
{
    nodes.iter().all(|node| (*node as usize) < n)
}

fn cell_ok(cell: &[u32]) -> bool
    ensures { result ≡ cell_ok cell.now }
{
    for (j, node) in cell.iter().enumerate() {
        if cell[..j].contains(node) {
            return false;
        }
    }
    true
}

pub(crate) fn cells_ok(nodes: &[u32], ends: &[u32]) -> bool
    ensures { result ≡ cells_ok nodes.now ends.now }
{
    Runs::new(nodes, ends).all(cell_ok)
}
