// The lowest refusal of both meshes.
ghost use Rattle.std.specs.Prelude.{◌≡◌, Ok, IfOk, false, eqb};
ghost use Rattle.refusals.specs.Numbers.{number, refused_with};
ghost use Rattle.entry.specs.Mesh.{mesh_of};
ghost use Rattle.entry.specs.Named.{op_number};
ghost use Rattle.entry.specs.Refused.{entry_of};
ghost use Rattle.entry.specs.ByMesh.{settings_refusal, mesh_refusal, lower_refusal, Few};

use crate::coords::coords_ok;
use crate::kinds::kinds_ok;
use crate::nodes::{cells_ok, nodes_ok};
use crate::operation::Operation;
use crate::shape::shape_ok;
use refusals::Refusal;
use settings::Settings;
use views::MeshView;

// Whether a mesh, of lines or of cells, passes 2 to 6. `Few` goes up from check to check: a type of a mesh that passed would be made twice and opened once.
#[tactic(auto, unfolding(crate::specs::ByMesh::mesh_refusal))]
fn check(lines: bool, mesh: &MeshView) -> Result<(), Refusal>
    ensures refusal { refused_with result ≡ mesh_refusal lines (mesh_of mesh.now) }
    ensures few { IfOk result (λ _. Few (mesh_of mesh.now)) }
{
    if !shape_ok(mesh) {
        return Err(Refusal::Lists);
    }
    if !coords_ok(mesh.coords) {
        return Err(Refusal::Coordinates);
    }
    if !kinds_ok(lines, mesh) {
        return Err(Refusal::Kinds);
    }
    if !nodes_ok(mesh.nodes, mesh.coords.len() / 2) {
        return Err(Refusal::NodeNumbers);
    }
    if !cells_ok(mesh.nodes, mesh.ends) {
        return Err(Refusal::NodeTwice);
    }
    Ok(())
}

// The lower of two refusals.
#[tactic(auto, using(crate::proofs::Lowest::lower_two))]
fn lower(a: Refusal, b: Refusal) -> Refusal
    ensures { number result ≡ lower_refusal (number a) (number b) }
{
    a.min(b)
}

// The refusal of one of two checks, the lower one where both refuse.
#[tactic(auto, using(crate::proofs::Lowest::lower_first, crate::proofs::Lowest::lower_second))]
fn both(a: Result<(), Refusal>, b: Result<(), Refusal>) -> Result<(), Refusal>
    ensures refusal { refused_with result ≡ lower_refusal (refused_with a) (refused_with b) }
    ensures none { IfOk result (λ _. (a ≡ Ok tt) × (b ≡ Ok tt)) }
{
    match (a, b) {
        (Err(r), Err(s)) => Err(lower(r, s)),
        (Err(r), Ok(())) => Err(r),
        (Ok(()), b) => b,
    }
}

// Whether both meshes of an overlay pass: the subject's cells, and the cutter's cells or lines.
fn check_both(operation: Operation, subject: &MeshView, cutter: &MeshView) -> Result<(), Refusal>
    ensures refusal { refused_with result
        ≡ lower_refusal (mesh_refusal false (mesh_of subject.now)) (mesh_refusal (eqb (op_number operation) 5) (mesh_of cutter.now)) }
    ensures few { IfOk result (λ _. Few (mesh_of subject.now) × Few (mesh_of cutter.now)) }
{
    both(
        check(false, subject),
        check(operation.takes_lines(), cutter),
    )
}

// What is set for an overlay, where it may be: the operation by its number, the limit of meetings, the grid.
#[tactic(auto, using(crate::proofs::Calls::settings_steps))]
fn check_settings(settings: Settings) -> Result<Operation, Refusal>
    ensures refusal { refused_with result ≡ settings_refusal settings }
    ensures operation { IfOk result (λ o. op_number o ≡ settings.op) }
{
    let operation = Operation::try_from(settings.op)?;
    if settings.m < 1 || 65536 < settings.m {
        return Err(Refusal::Call);
    }
    if matches!(settings.grid, Some(k) if 10 < k) {
        return Err(Refusal::FineGrid);
    }
    Ok(operation)
}

// Whether nothing is refused because of the input; `work` is the length of the working list.
#[tactic(auto, using(crate::proofs::Calls::entry_steps))]
pub fn entry(
    settings: Settings,
    subject: &MeshView,
    cutter: &MeshView,
    work: usize,
) -> Result<(), Refusal>
    ensures { refused_with result ≡ entry_of settings (mesh_of subject.now) (mesh_of cutter.now) work }
{
    let operation = check_settings(settings)?;
    check_both(operation, subject, cutter)?;
    let nodes = subject.coords.len() / 2 + cutter.coords.len() / 2;
    let entries = subject.nodes.len() + cutter.nodes.len();
    if work < 16 * (nodes + entries + settings.m as usize) + 64 {
        return Err(Refusal::WorkingList);
    }
    Ok(())
}
