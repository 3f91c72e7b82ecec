// Refusal 2: the shape of a mesh's lists.
ghost use Rattle.std.specs.Prelude.{◌≡◌, true, length};
ghost use Rattle.std.specs.Bool.{OnTrue};
ghost use Rattle.entry.specs.Mesh.{mesh_of};
ghost use Rattle.entry.specs.ByMesh.{Few};
ghost use Rattle.entry.specs.Refused.{ends_ok, shape_ok};

use views::MeshView;

#[tactic(auto, using(crate::proofs::Ends::ends_none, crate::proofs::Ends::ends_zero, crate::proofs::Ends::ends_short))]
fn ends_ok(ends: &[u32], n: usize) -> bool
    ensures { result ≡ ends_ok ends.now n }
{
    match ends {
        [] => n == 0,
        [0, ..] => false,
        [.., last] => *last as usize == n && ends.is_sorted_by(|a, b| a < b),
    }
}

#[tactic(auto, unfolding(crate::specs::Refused::shape_ok))]
pub(crate) fn shape_ok(mesh: &MeshView) -> bool
    ensures answer { result ≡ shape_ok (mesh_of mesh.now) }
    ensures passed { OnTrue result ((length mesh.now.kinds.now ≡ length mesh.now.ends.now) × (ends_ok mesh.now.ends.now (length mesh.now.nodes.now) ≡ true)) }
    ensures few { OnTrue result (Few (mesh_of mesh.now)) }
{
    mesh.coords.len() % 2 == 0
        && ends_ok(mesh.ends, mesh.nodes.len())
        && mesh.kinds.len() == mesh.ends.len()
        && mesh.families.len() == mesh.ends.len()
        && mesh.layers.len() == mesh.coords.len() / 2
        && mesh.coords.len() / 2 <= 16384
        && mesh.ends.len() <= 16384
        && mesh.nodes.len() <= 65536
}
