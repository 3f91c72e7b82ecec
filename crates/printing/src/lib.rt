// Printing the program's text into a lent list.
#![tactic(auto)]

ghost use Rattle.text.specs.Text.{listing_text, answer_text};
ghost use Rattle.printing.specs.Page.{Prints};
ghost use Rattle.printing.specs.Told.{bits, lines_of, told};
ghost use Rattle.printing.specs.Written.{Wrote};

mod digits;
mod lines;
mod writer;

use writer::Writer;

// the list ends before the text
#[derive(Clone, Copy, Debug, PartialEq, Eq)]
pub struct Full;

// what the text counts of an overlay: doubled cells too, of which overlay's own `Counts` says nothing, as there are none, and not all new points
#[derive(Clone, Copy, Debug, PartialEq, Eq)]
pub struct Counts {
    pub pieces: u32,
    pub points: u32,
    pub doubled: u32,
}

// what the program has to say, in three cases: a refusal by its number, since a `Refusal` would ask more of who prints one; of an overlay, how many
// nodes the lists hold, and what was counted
#[derive(Clone, Copy, Debug, PartialEq, Eq)]
pub enum Answer {
    Unread,
    Refused(u32),
    Overlay { nodes: u32, counts: Counts },
}

// the lists of an `OutputView`, lent to be read only, as who prints need not lend them to be written: coordinates, layers, the pieces' corners, where those of
// each piece end, and of each piece its kind, family and parent
#[derive(Clone, Copy, Default)]
pub struct Listing<'a> {
    pub coords: &'a [f64],
    pub layers: &'a [u32],
    pub nodes: &'a [u32],
    pub ends: &'a [u32],
    pub kinds: &'a [u8],
    pub families: &'a [u32],
    pub meshes: &'a [u32],
    pub cells: &'a [u32],
}

impl<'a> Writer<'a> {
    #[tactic(auto, unfolding(crate::specs::Page::page_with), using(crate::proofs::Pages::written_append, crate::proofs::Rests::listing_parts))]
    fn put_listing(&mut self, lists: &Listing, counts: Counts)
        ensures { Wrote self.old self.new (listing_text (bits lists.now.coords.now) lists.now.layers.now
            (lines_of lists.now) counts.pieces counts.points counts.doubled) }
    {
        let numbers = [counts.pieces, counts.points, counts.doubled];
        self.put(b"(overlay\n");
        self.put_nodes(lists.coords, lists.layers);
        self.put_pieces(lists);
        self.put_line(b"(count", &numbers);
        self.put(b")\n");
    }

    #[tactic(auto, using(crate::proofs::Answers::told_steps))]
    fn put_answer(&mut self, answer: Answer, lists: &Listing)
        ensures { Wrote self.old self.new (answer_text (told answer lists.now)) }
    {
        match answer {
            Answer::Unread => self.put(b"(unread)\n"),
            Answer::Refused(n) => self.put_line(b"(refused", &[n]),
            Answer::Overlay { nodes, counts } => {
                let n = (2 * nodes as usize).min(lists.coords.len());
                let k = (counts.pieces as usize).min(lists.ends.len());
                let shown = Listing {
                    coords: &lists.coords[..n],
                    ends: &lists.ends[..k],
                    ..*lists
                };
                self.put_listing(&shown, counts);
            }
        }
    }
}

// The text of an answer, from the list's first place on: the place after it.
#[tactic(auto, using(crate::proofs::Pages::whole, crate::proofs::Pages::parts))]
pub fn print_answer(out: &mut [u8], answer: Answer, lists: &Listing) -> Result<usize, Full>
    ensures { Prints result out.old out.new (answer_text (told answer lists.now)) }
{
    let mut writer = Writer {
        bytes: out,
        place: Ok(0),
    };
    writer.put_answer(answer, lists);
    writer.place
}
