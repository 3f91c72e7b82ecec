// The program's answer: a text read, two meshes overlaid, the answer printed.
#![tactic(auto)]

ghost use Rattle.std.specs.Prelude.{◌≡◌, ◌+◌, ◌*◌, ◌≤◌, length, IfOk};
ghost use Rattle.lists.specs.Regions.{front};
ghost use Rattle.entry.specs.Mesh.{mesh_of};
ghost use Rattle.reading.specs.Seen.{mesh_of as read_of, Within};
ghost use Rattle.text.specs.Text.{answer_text};
ghost use Rattle.printing.specs.Page.{Prints};
ghost use Rattle.program.specs.Answered.{overlay_told, answer_to, lent};
ghost use Rattle.program.specs.Printed.{printed_of};

use overlay::overlay;
use printing::{Answer, Counts, Full, Listing};
use reading::MeshLists;
use refusals::Refusal;
use settings::Settings;
use views::{MeshView, OutputView};

// A text of more than 65,536 bytes is refused, so a program reads one byte more.
pub const MOST_READ: u64 = 65537;

// Holds any answer.
pub const MOST_WRITTEN: usize = 301108;

// what is printed of an overlay's answer: `nodes` are those of both meshes
fn told(nodes: u32, answer: Result<overlay::Counts, Refusal>) -> Answer
    requires { IfOk answer (λ k. nodes + k.added ≤ 4294967295) }
    ensures { result ≡ printed_of nodes answer }
{
    match answer {
        Ok(k) => Answer::Overlay {
            nodes: nodes + k.added,
            counts: Counts {
                pieces: k.pieces,
                points: k.points,
                doubled: 0,
            },
        },
        Err(refusal) => Answer::Refused(refusal.number()),
    }
}

// the lists of the pieces, as they are printed. No From: both types are of other crates.
fn listing<'a>(pieces: &'a OutputView) -> Listing<'a>
    ensures { (result.coords.now ≡ pieces.now.coords.now) × (result.layers.now ≡ pieces.now.layers.now) × (result.nodes.now ≡ pieces.now.nodes.now) × (result.ends.now ≡ pieces.now.ends.now)
        × (result.kinds.now ≡ pieces.now.kinds.now) × (result.families.now ≡ pieces.now.families.now)
        × (result.meshes.now ≡ pieces.now.meshes.now) × (result.cells.now ≡ pieces.now.cells.now) }
{
    Listing {
        coords: pieces.coords,
        layers: pieces.layers,
        nodes: pieces.nodes,
        ends: pieces.ends,
        kinds: pieces.kinds,
        families: pieces.families,
        meshes: pieces.meshes,
        cells: pieces.cells,
    }
}

// a mesh as read: as much of the lists as the counts say. It stands here, as `listing` does: the program alone shows a mesh that it has read.
fn view<'a>(lists: &'a MeshLists, counts: reading::Counts) -> MeshView<'a>
    requires { Within counts lists.now }
    ensures mesh { mesh_of result ≡ lent (read_of counts lists.now) }
    ensures long { length result.coords.now ≤ length lists.now.coords.now }
{
    MeshView {
        coords: &lists.coords[..2 * counts.points],
        layers: &lists.layers[..counts.points],
        nodes: &lists.nodes[..counts.entries],
        ends: &lists.ends[..counts.cells],
        kinds: &lists.kinds[..counts.cells],
        families: &lists.families[..counts.cells],
    }
}

// the answer for two meshes as read, by settings that are read whatever they are
fn cut(
    settings: Settings,
    subject: &MeshView,
    cutter: &MeshView,
    out: &mut [u8],
) -> Result<usize, Full>
    requires subject_nodes { length subject.now.coords.now ≤ 1024 }
    requires cutter_nodes { length cutter.now.coords.now ≤ 1024 }
    ensures { Prints result out.old out.new (answer_text (overlay_told settings (mesh_of subject.now) (mesh_of cutter.now))) }
{
    let mut oc = [0.0; 4096];
    let mut ol = [0u32; 2048];
    let mut on = [0u32; 8192];
    let mut oe = [0u32; 2048];
    let mut ok = [0u8; 2048];
    let mut of = [0u32; 2048];
    let mut om = [0u32; 2048];
    let mut oi = [0u32; 2048];
    let mut work = [0u32; 16384];
    let nodes = (subject.coords.len() / 2 + cutter.coords.len() / 2) as u32;
    let mut pieces = OutputView {
        coords: &mut oc,
        layers: &mut ol,
        nodes: &mut on,
        ends: &mut oe,
        kinds: &mut ok,
        families: &mut of,
        meshes: &mut om,
        cells: &mut oi,
    };
    let answer = overlay(settings, subject, cutter, &mut pieces, &mut work);
    printing::print_answer(out, told(nodes, answer), &listing(&pieces))
}

// The answer to the text s, from the first place of `out` on. The lists stand one by one, of fixed length: a struct of a mesh's six arrays with a method that lends
// them as `MeshLists` is no shorter, and is copied whole where it is made.
#[tactic(auto, unfolding(printing::specs::Told::told), using(crate::proofs::Answers::unread_answer))]
pub fn answer(s: &[u8], out: &mut [u8]) -> Result<usize, Full>
    ensures { Prints result out.old out.new (answer_to s.now) }
{
    let mut sc = [0.0; 1024];
    let mut sl = [0u32; 512];
    let mut sn = [0u32; 2048];
    let mut se = [0u32; 512];
    let mut sk = [0u8; 512];
    let mut sf = [0u32; 512];
    let mut cc = [0.0; 1024];
    let mut cl = [0u32; 512];
    let mut cn = [0u32; 2048];
    let mut ce = [0u32; 512];
    let mut ck = [0u8; 512];
    let mut cf = [0u32; 512];
    let mut subject_lists = MeshLists {
        coords: &mut sc,
        layers: &mut sl,
        nodes: &mut sn,
        ends: &mut se,
        kinds: &mut sk,
        families: &mut sf,
    };
    let mut cutter_lists = MeshLists {
        coords: &mut cc,
        layers: &mut cl,
        nodes: &mut cn,
        ends: &mut ce,
        kinds: &mut ck,
        families: &mut cf,
    };
    let Some(input) = reading::read_input(s, &mut subject_lists, &mut cutter_lists) else {
        return printing::print_answer(out, Answer::Unread, &Listing::default());
    };
    let subject = view(&subject_lists, input.subject);
    let cutter = view(&cutter_lists, input.cutter);
    cut(input.settings, &subject, &cutter, out)
}

// The same in a list that holds any answer: how many bytes it has.
#[tactic(auto, using(crate::proofs::Sizes::reply_steps))]
pub fn reply(s: &[u8], out: &mut [u8]) -> usize
    requires { 301108 ≤ length out.old }
    ensures { (result ≡ length (answer_to s.now)) × (out.new ≡ front out.old (answer_to s.now)) × (result ≤ 301108) }
{
    answer(s, out).unwrap()
}
