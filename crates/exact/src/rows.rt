// Orientation whatever the exponents: six products added into two rows of cells, one for what is
// added and one for what is taken away. A cell is worth 2^32 times the one before.
ghost use Rattle.std.specs.Prelude.{◌≡◌, ◌*◌, ◌^◌, ◌<◌, ◌≤◌, ◌+ℤ◌, ◌*ℤ◌, ◌+◌, pos, length};
ghost use Rattle.exact.specs.Exact.{sign};
ghost use Rattle.exact.specs.Inner.{det_of, product_size, signed_size};
ghost use Rattle.exact.specs.InnerCells.{RowGrown, greatest};

use crate::parts::Parts;
use crate::products::Product;
use crate::vectors::Vector;
use std::cmp::Ordering;

// What a cell is worth in units of the one before.
const CELL: u64 = 0x1_0000_0000;

// The number of the first row less that of the second. Two rows, not one of signed cells: what is only added to needs no borrow, and `sign` carries upward alone.
#[derive(Drop)]
pub(crate) struct Rows {
    pub(crate) more: [u64; 136],
    pub(crate) less: [u64; 136],
    ghost more_long: { length more ≡ 136 },
    ghost less_long: { length less ≡ 136 },
}

// v · 2^e is added to the number that the cells stand for: e is an exponent, no place in a list. Nothing is carried.
#[tactic(auto, using(crate::proofs::Cells::get_le, crate::proofs::Cells::fits_one, crate::proofs::Cells::fits_two))]
fn add_word(acc: &mut [u64; 136], v: u64, e: usize)
    requires { (e < 4288) × (greatest acc.old ≤ 64 * 2 ^ 34) }
    ensures { RowGrown 1 (v * 2 ^ e) acc.old acc.new }
{
    let j = e / 32;
    let r = e % 32;
    let a = (v % CELL) << r;
    let b = (v / CELL) << r;
    acc[j] += a % CELL;
    acc[j + 1] += a / CELL + b % CELL;
    acc[j + 2] += b / CELL;
}

#[tactic(auto, using(crate::proofs::Cells::grown_product))]
fn add_product(acc: &mut [u64; 136], p: Product)
    requires { greatest acc.old ≤ 60 * 2 ^ 34 }
    ensures { RowGrown 2 (product_size p) acc.old acc.new }
{
    add_word(acc, (p.w % 0x1_0000_0000_0000_0000) as u64, p.e);
    add_word(acc, (p.w >> 64) as u64, p.e + 64);
}

impl Rows {
    ghost use Rattle.exact.specs.InnerRows.{fullest, net};

    // Inlined, as a call would pass the rows through memory.
    #[inline(always)]
    #[tactic(auto, using(crate::proofs::Terms::empty_full, crate::proofs::Terms::empty_net))]
    fn new() -> Rows
        ensures full { fullest result ≡ 0 }
        ensures total { net result ≡ pos 0 }
    {
        Rows {
            more: [0; 136],
            less: [0; 136],
        }
    }

    // Adds the product of a and b.
    fn add(&mut self, a: Parts, b: Parts)
        requires { fullest self.old ≤ 60 * 2 ^ 34 }
        ensures total { net self.new ≡ net self.old +ℤ signed_size a *ℤ signed_size b }
        ensures filled { fullest self.new ≤ fullest self.old + 2 * 2 ^ 34 }
    {
        if a.neg != b.neg {
            add_product(&mut self.less, a.times(b));
        } else {
            add_product(&mut self.more, a.times(b));
        }
    }

    // From the lowest cells up, each carry taken along.
    fn sign(&self) -> Ordering
        requires { fullest self.now ≤ 64 * 2 ^ 34 }
        ensures { result ≡ sign (net self.now) }
    {
        let mut order = Ordering::Equal;
        let mut u: u64 = 0;
        let mut v: u64 = 0;
        for (p, n) in self.more.iter().zip(&self.less) {
            let a = *p + u;
            let b = *n + v;
            order = (a % CELL).cmp(&(b % CELL)).then(order);
            u = a / CELL;
            v = b / CELL;
        }
        u.cmp(&v).then(order)
    }
}

// The sign of (a.x−c.x)(b.y−c.y) − (a.y−c.y)(b.x−c.x). Inlined, as a call would pass the vectors through memory.
#[inline(always)]
pub(crate) fn orient_far(a: Vector, b: Vector, c: Vector) -> Ordering
    ensures { result ≡ sign (det_of a b c) }
{
    let mut rows = Rows::new();
    rows.add(a.x, b.y);
    rows.add(a.x.negated(), c.y);
    rows.add(c.x.negated(), b.y);
    rows.add(a.y.negated(), b.x);
    rows.add(a.y, c.x);
    rows.add(c.y, b.x);
    rows.sign()
}
