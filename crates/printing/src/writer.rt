// A text written byte by byte into a lent list, as far as the list goes.
ghost use Rattle.std.specs.Prelude.{◌≡◌, Ok};
ghost use Rattle.printing.specs.Page.{page, page_with};
ghost use Rattle.printing.specs.Written.{Wrote};

use crate::Full;
use lists::copy_at;

// The list and the place of the next byte, which stand apart since the list is the caller's, filled from its front. Where a byte has found no place,
// nothing more is written.
#[derive(Drop)]
pub(crate) struct Writer<'a> {
    pub(crate) bytes: &'a mut [u8],
    pub(crate) place: Result<usize, Full>,
}

// The text from `at` on, as far as there is room: the place after it. std's `Write` for a lent list says how many bytes it takes, and not what the list holds then.
#[tactic(auto, using(crate::proofs::Pages::copied_short, crate::proofs::Pages::copied_whole))]
fn put_at(out: &mut [u8], at: usize, text: &[u8]) -> Result<usize, Full>
    ensures { page result out.new ≡ page_with (page (Ok at) out.old) text.now }
{
    let room = out.len().saturating_sub(at);
    if room < text.len() {
        copy_at(out, at, &text[..room]);
        return Err(Full);
    }
    copy_at(out, at, text);
    Ok(at + text.len())
}

impl<'a> Writer<'a> {
    #[tactic(auto, using(crate::proofs::Pages::written_refused))]
    pub(crate) fn put(&mut self, text: &[u8])
        ensures { Wrote self.old self.new text.now }
    {
        if let Ok(at) = self.place {
            self.place = put_at(self.bytes, at, text);
        }
    }
}
