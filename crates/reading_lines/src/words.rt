// Words and numbers: each function answers what stands at the front of the text, and the text after it.
ghost use Rattle.std.specs.Prelude.{◌≡◌, ◌≤◌, ◌<◌, MatchOption, option_copied};
ghost use Rattle.text.specs.Read.{digit_val, hex_val, word_from, more_from, decimal_from, hex_from};
ghost use Rattle.text.specs.Given.{coordinate};
ghost use Rattle.reading_lines.specs.Lines.{read_as};

pub const SPACE: &[u8] = b" ";

pub const NEWLINE: &[u8] = b"\n";

pub const CLOSE: &[u8] = b")\n";

pub const NODE: &[u8] = b"(node ";

pub const CELL: &[u8] = b"(cell ";

pub const MESH: &[u8] = b"(mesh\n";

pub const OVERLAY: &[u8] = b"(overlay ";

#[tactic(auto, using(std::proofs::lemmas::Bool::Decides::nat_tests), unfolding(text::specs::Read::digit_val))]
pub fn digit_of(b: u8) -> Option<u32>
    ensures { MatchOption result (10 ≤ digit_val b) (λ d. (d ≡ digit_val b) × (d < 10)) }
{
    char::from(b).to_digit(10)
}

// a small hexadecimal digit: std's to_digit(16) takes capital letters too
#[tactic(auto, using(std::proofs::lemmas::Bool::Decides::nat_tests), unfolding(text::specs::Read::hex_val, text::specs::Read::digit_val))]
pub fn hex_of(b: u8) -> Option<u64>
    ensures { MatchOption result (16 ≤ hex_val b) (λ d. (d ≡ hex_val b) × (d < 16)) }
{
    match b {
        b'0'..=b'9' => Some(u64::from(b - b'0')),
        b'a'..=b'f' => Some(u64::from(b - b'a' + 10)),
        _ => None,
    }
}

// the text after the word w
pub fn read_word<'a>(s: &'a [u8], w: &[u8]) -> Option<&'a [u8]>
    ensures { option_copied result ≡ word_from w.now s.now }
{
    s.strip_prefix(w)
}

// the digits after the first ones, whose number is `first`
#[tactic(auto, using(crate::proofs::Loops::more_steps))]
pub fn read_more(first: u32, s: &[u8]) -> Option<(u32, &[u8])>
    ensures { read_as result ≡ more_from first s.now }
{
    let mut v = first;
    for (i, b) in s.iter().enumerate() {
        let Some(d) = digit_of(*b) else {
            return Some((v, &s[i..]));
        };
        v = v.checked_mul(10)?.checked_add(d)?;
    }
    Some((v, &[]))
}

// No `parse`: it wants a `str` that ends with the number, and takes a sign and zeros in front.
#[tactic(auto, using(crate::proofs::Loops::decimal_steps))]
pub fn read_decimal(s: &[u8]) -> Option<(u32, &[u8])>
    ensures { read_as result ≡ decimal_from s.now }
{
    let (b, rest) = s.split_first()?;
    let d = digit_of(*b)?;
    if d == 0 {
        return Some((0, rest));
    }
    read_more(d, rest)
}

// No `from_str_radix`: it takes a sign and capital letters.
#[tactic(auto, using(crate::proofs::Loops::hex_steps))]
pub fn read_hex(s: &[u8]) -> Option<(u64, &[u8])>
    ensures { read_as result ≡ hex_from 16 0 s.now }
{
    let (digits, rest) = s.split_at_checked(16)?;
    let mut v: u64 = 0;
    for b in digits {
        v = v.checked_mul(16)? + hex_of(*b)?;
    }
    Some((v, rest))
}

// a NaN's pattern is no argument of from_bits
#[tactic(auto, using(std::proofs::lemmas::Float::not_nan_f64_bits, crate::proofs::Patterns::beyond))]
pub fn coordinate_of(bits: u64) -> f64
    ensures { result ≡ coordinate bits }
{
    if bits % 0x8000_0000_0000_0000 <= 0x7ff0_0000_0000_0000 {
        f64::from_bits(bits)
    } else {
        f64::NAN
    }
}
