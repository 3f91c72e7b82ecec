// The overlay for C and Rust programs: the refusal's number or 0 is the answer, the counts go into a lent list.
#![tactic(auto)]

ghost use Rattle.std.specs.Prelude.{◌≡◌};
ghost use Rattle.entry.specs.Mesh.{mesh};
ghost use Rattle.rules.specs.Overlay.{lent_lists, overlay_of};
ghost use Rattle.overlay_c.specs.Answer.{grid_of, settings_of, AnswerOf, placed};

use lists::copy_at;
use overlay::overlay;
use settings::Settings;
use views::{OutputView, view};

// No grid, where C hands over a number.
const NO_GRID: u32 = u32::MAX;

fn grid_of(grid: u32) -> Option<u32>
    ensures { result ≡ grid_of grid }
{
    if grid == NO_GRID { None } else { Some(grid) }
}

// The counts are put into the first places, as many as there are. The third, once the count of doubled cells, is 0.
#[tactic(auto, using(crate::proofs::Placed::in_places))]
fn put(counts: &mut [u32], pieces: u32, points: u32, added: u32)
    ensures { counts.new ≡ placed pieces points 0 added counts.old }
{
    let all = [pieces, points, 0, added];
    let n = counts.len().min(4);
    // No `copy_from_slice`: it calls memmove, which the archive asks of nobody.
    copy_at(counts, 0, &all[..n]);
}

// Operation, meeting limit M, grid or none; the subject's and the cutter's coordinates, layers, node numbers, cell ends, kinds and families; the same six output lists,
// and those of the parents' meshes and cells; the working list; the counts of pieces, of new points that a piece names, 0, and of all new points. Plain lists, as C
// lends them; the output is written out, not made by `output`, so that the prover knows what each list ends as.
#[unsafe(no_mangle)]
pub extern "C" fn daqwimay_overlay<'a, 'b, 'c>(
    op: u32,
    m: u32,
    grid: u32,
    sc: &'a [f64],
    sl: &'a [u32],
    sn: &'a [u32],
    se: &'a [u32],
    sk: &'a [u8],
    sf: &'a [u32],
    cc: &'b [f64],
    cl: &'b [u32],
    cn: &'b [u32],
    ce: &'b [u32],
    ck: &'b [u8],
    cf: &'b [u32],
    oc: &'c mut [f64],
    ol: &'c mut [u32],
    on: &'c mut [u32],
    oe: &'c mut [u32],
    ok: &'c mut [u8],
    of: &'c mut [u32],
    om: &'c mut [u32],
    oi: &'c mut [u32],
    work: &mut [u32],
    counts: &mut [u32],
) -> u32
    ensures { AnswerOf (overlay_of (settings_of op m grid)
        (mesh sc.now sl.now sn.now se.now sk.now sf.now)
        (mesh cc.now cl.now cn.now ce.now ck.now cf.now)
        (lent_lists oc.old ol.old on.old oe.old ok.old of.old om.old oi.old work.old)) counts.old
        result (lent_lists oc.new ol.new on.new oe.new ok.new of.new om.new oi.new work.new) counts.new }
{
    let subject = view(sc, sl, sn, se, sk, sf);
    let cutter = view(cc, cl, cn, ce, ck, cf);
    let mut out = OutputView {
        coords: oc,
        layers: ol,
        nodes: on,
        ends: oe,
        kinds: ok,
        families: of,
        meshes: om,
        cells: oi,
    };
    let settings = Settings {
        op,
        m,
        grid: grid_of(grid),
    };
    match overlay(settings, &subject, &cutter, &mut out, work) {
        Ok(k) => {
            put(counts, k.pieces, k.points, k.added);
            0
        }
        Err(refusal) => {
            put(counts, 0, 0, 0);
            refusal.number()
        }
    }
}
