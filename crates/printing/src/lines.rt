// Lines, each written after what stands in the list.
ghost use Rattle.std.specs.Prelude.{◌≡◌, ◌++◌};
ghost use Rattle.std.specs.Float.Ieee.{to_bits};
ghost use Rattle.std.specs.Float.{binary64};
ghost use Rattle.text.specs.Text.{space, close, decimal, hex, node_text, nodes_text, numbers_text, piece_text, pieces_text};
ghost use Rattle.printing.specs.Told.{bits, lines_of};
ghost use Rattle.printing.specs.Written.{line_of, Wrote};

use crate::Listing;
use crate::digits::{bits_of, hex_digits};
use crate::writer::Writer;
use lists::Runs;

// a piece and its corners, by the numbers that the lists hold: those of its kind, of its mesh and of its cell there
#[derive(Clone, Copy)]
pub(crate) struct Piece<'a> {
    kind: u8,
    family: u32,
    mesh: u32,
    cell: u32,
    nodes: &'a [u32],
}

impl<'a> Writer<'a> {
    #[tactic(auto, unfolding(crate::specs::Page::page_with), using(crate::proofs::FromRight::decimal_printed))]
    fn put_number(&mut self, n: u32)
        ensures { Wrote self.old self.new (space ++ decimal n) }
    {
        self.put(b" ");
        let mut digits = itoa::Buffer::new();
        self.put(digits.format(n).as_bytes());
    }

    // a space and the number, for each
    #[tactic(auto, using(crate::proofs::Rests::numbers_steps))]
    fn put_numbers(&mut self, numbers: &[u32])
        ensures { Wrote self.old self.new (numbers_text numbers.now) }
    {
        for n in numbers {
            self.put_number(*n);
        }
    }

    // a word, numbers and the closing parenthesis
    #[tactic(auto, using(crate::proofs::Pages::written_append))]
    pub(crate) fn put_line(&mut self, word: &[u8], numbers: &[u32])
        ensures { Wrote self.old self.new (word.now ++ (numbers_text numbers.now ++ close)) }
    {
        self.put(word);
        self.put_numbers(numbers);
        self.put(b")\n");
    }

    fn put_bits(&mut self, x: f64)
        ensures { Wrote self.old self.new (hex (to_bits binary64 x)) }
    {
        self.put(&hex_digits(bits_of(x)));
    }

    #[tactic(auto, unfolding(crate::specs::Page::page_with, text::specs::Text::node_text), using(crate::proofs::Pages::written_append))]
    fn put_node(&mut self, x: f64, y: f64, layer: u32)
        ensures { Wrote self.old self.new (node_text (to_bits binary64 x) (to_bits binary64 y) layer) }
    {
        self.put(b"(node ");
        self.put_bits(x);
        self.put(b" ");
        self.put_bits(y);
        self.put_number(layer);
        self.put(b")\n");
    }

    #[tactic(auto, using(crate::proofs::Rests::nodes_steps))]
    pub(crate) fn put_nodes(&mut self, coords: &[f64], layers: &[u32])
        ensures { Wrote self.old self.new (nodes_text (bits coords.now) layers.now) }
    {
        for (node, layer) in coords.chunks_exact(2).zip(layers) {
            self.put_node(node[0], node[1], *layer);
        }
    }

    #[tactic(auto, unfolding(crate::specs::Page::page_with), using(crate::proofs::Pages::written_append, crate::proofs::Rests::piece_parts))]
    fn put_piece(&mut self, piece: Piece)
        ensures { Wrote self.old self.new (piece_text (line_of piece.entry)) }
    {
        let numbers = [piece.kind as u32, piece.family, piece.mesh, piece.cell];
        self.put(b"(cell");
        self.put_numbers(&numbers);
        self.put_numbers(piece.nodes);
        self.put(b")\n");
    }

    #[tactic(auto, using(crate::proofs::Rests::pieces_steps))]
    pub(crate) fn put_pieces(&mut self, lists: &Listing)
        ensures { Wrote self.old self.new (pieces_text (lines_of lists.now)) }
    {
        let marks = lists.kinds.iter().zip(lists.families);
        let parents = lists.meshes.iter().zip(lists.cells);
        let pieces = Runs::new(lists.nodes, lists.ends).zip(marks.zip(parents));
        for (nodes, ((kind, family), (mesh, cell))) in pieces {
            self.put_piece(Piece {
                kind: *kind,
                family: *family,
                mesh: *mesh,
                cell: *cell,
                nodes,
            });
        }
    }
}
