// Answers lines on the geometry layer by itself, as the published Rust does in a differential run: a word and numbers, each the 16
// hexadecimal digits of an f64. `meet` two segments; `inner` the corners of a polygon; `inside` a point and the corners; `orient`
// three points; `around` a centre and its neighbours. The word is known by its third letter; of a line 512 points are read. Of the input the
// first 65,536 bytes are read, and each line that ends there.
#![tactic(auto)]

use corners::Ring;
use plane::{Point, point_at};
use reading_lines::words::{coordinate_of, hex_of};
use segments::{Meeting, Segment};
use std::alloc::Global;
use std::cmp::Ordering;
use std::io::{BufWriter, Read, Write};
use std::{fmt, io};

const MOST_READ: u64 = 65536;

const MOST_POINTS: usize = 512;

// ---- Numbers

// An f64 as 16 hexadecimal digits; any NaN as one NaN. printing's own `bits_of` and `hex_digits` are inner, and write bytes.
#[derive(Clone, Copy)]
struct Bits(f64);

impl fmt::Display for Bits {
    fn fmt<W: fmt::Write>(&self, f: &mut fmt::Formatter<W>) -> fmt::Result {
        if self.0.is_nan() {
            f.write_str("7ff8000000000000")
        } else {
            write!(f, "{:016x}", self.0.to_bits())
        }
    }
}

// The number that the first 16 digits of a word are the bits of; any other character counts as 0. Words are not read by reading_lines' `read_hex`: its numbers
// have 16 digits or are none, and here a shorter or malformed word has a value too.
fn number(word: &[u8]) -> f64 {
    let mut bits = 0;
    for b in word.iter().take(16) {
        bits = bits << 4 | hex_of(*b).unwrap_or(0);
    }
    coordinate_of(bits)
}

// ---- Answers

// How many points there are, of which no more are taken than a line has.
fn count(coords: &[f64]) -> u32 {
    (coords.len() / 2).min(MOST_POINTS) as u32
}

// A meeting, as a line has it.
#[derive(Clone, Copy)]
struct Met(Meeting);

impl fmt::Display for Met {
    fn fmt<W: fmt::Write>(&self, f: &mut fmt::Formatter<W>) -> fmt::Result {
        match self.0 {
            Meeting::Apart => f.write_str("none"),
            Meeting::Existing(end) => write!(f, "{end:?}"),
            Meeting::New(x, y) => write!(f, "new {} {}", Bits(x), Bits(y)),
            Meeting::Overlap(from, to) => write!(f, "{from:?},{to:?}"),
        }
    }
}

// The meeting of the first point and the second with the third and the fourth.
fn meet(coords: &[f64]) -> Meeting {
    let first = Segment {
        a: point_at(coords, 0),
        b: point_at(coords, 1),
    };
    let second = Segment {
        a: point_at(coords, 2),
        b: point_at(coords, 3),
    };
    first.intersect(second)
}

fn orient(coords: &[f64]) -> Ordering {
    exact::orient2d(
        point_at(coords, 0),
        point_at(coords, 1),
        point_at(coords, 2),
    )
}

fn inner<W: Write>(alloc: Global, out: &mut W, coords: &[f64]) -> io::Result<()> {
    let corners: Vec<u32> = (0..count(coords)).collect(alloc)?;
    match polygons::strict_interior_point(Ring::new(coords, &corners)) {
        None => out.write_all(b"none"),
        Some(p) => write!(out, "{} {}", Bits(p.x), Bits(p.y)),
    }
}

// Whether the first point is inside the polygon of the others.
fn inside<W: Write>(alloc: Global, out: &mut W, coords: &[f64]) -> io::Result<()> {
    let corners: Vec<u32> = (1..count(coords)).collect(alloc)?;
    write!(
        out,
        "{}",
        insides::inside(Ring::new(coords, &corners), point_at(coords, 0))
    )
}

// The places of the neighbours, those after the first point, by their directions from it, equal ones as given.
fn around<W: Write>(alloc: Global, out: &mut W, coords: &[f64]) -> io::Result<()> {
    let centre = point_at(coords, 0);
    let mut neighbours: Vec<(usize, Point)> = (1..count(coords))
        .enumerate()
        .map(|(place, node)| (place, point_at(coords, node)))
        .collect(alloc)?;
    neighbours.sort_by(|(_, p), (_, q)| exact::compare_around(centre, *p, *q))?;
    for (k, (place, _)) in neighbours.iter().enumerate() {
        if k > 0 {
            out.write_all(b" ")?;
        }
        write!(out, "{place}")?;
    }
    Ok(())
}

fn unread<W: Write>(out: &mut W) -> io::Result<()> {
    out.write_all(b"(unread)")
}

fn answer<W: Write>(alloc: Global, out: &mut W, line: &[u8]) -> io::Result<()> {
    let mut words = line.split(|b| *b == b' ');
    let form = words.next().and_then(|word| word.get(2));
    let mut coords = Vec::new(alloc);
    for word in words.take(2 * MOST_POINTS) {
        coords.push(number(word))?;
    }
    // By the letter itself: an enum of the forms would be made by one match and taken apart by the next.
    match (form, coords.len()) {
        (Some(b'e'), 8) => write!(out, "{}", Met(meet(&coords))),
        (Some(b'n'), _) => inner(alloc, out, &coords),
        (Some(b's'), 2..) => inside(alloc, out, &coords),
        (Some(b'i'), 6) => write!(out, "{}", orient(&coords) as i8),
        (Some(b'o'), 2..) => around(alloc, out, &coords),
        _ => unread(out),
    }
}

fn main(rt: HostRuntime) -> io::Result<()> {
    let alloc = rt.alloc();
    let mut text = Vec::new(alloc);
    rt.stdin().take(MOST_READ).read_to_end(&mut text)?;
    let mut out = BufWriter::new(alloc, io::writer(&rt))?;
    for line in text.split_inclusive(|b| *b == b'\n') {
        if let Some(line) = line.strip_suffix(b"\n") {
            answer(alloc, &mut out, line)?;
            out.write_all(b"\n")?;
        }
    }
    out.flush()
}
