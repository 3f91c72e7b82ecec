// The hexadecimal digits of coordinates.
ghost use Rattle.std.specs.Prelude.{◌≡◌, ◌<◌};
ghost use Rattle.std.specs.Float.Ieee.{to_bits};
ghost use Rattle.std.specs.Float.{binary64};
ghost use Rattle.text.specs.Text.{hex, glyph};

// No char::from_digit: it gives an Option of a char, where each d is a digit.
#[tactic(auto, unfolding(text::specs::Text::glyph))]
fn glyph_of(d: u8) -> u8
    requires { d < 16 }
    ensures { result ≡ glyph d }
{
    if d < 10 { b'0' + d } else { b'a' + (d - 10) }
}

// the last digit comes first, so all are turned round at the end
#[tactic(auto, using(crate::proofs::FromRight::hex_start, crate::proofs::FromRight::hex_end))]
pub(crate) fn hex_digits(n: u64) -> [u8; 16]
    ensures { result ≡ hex n }
{
    let mut digits = [0; 16];
    let mut left = n;
    for digit in digits.iter_mut() {
        *digit = glyph_of((left % 16) as u8);
        left /= 16;
    }
    digits.reverse();
    digits
}

// a NaN is printed as 7ff8000000000000
#[tactic(auto, using(crate::proofs::FromRight::nan_bits))]
pub(crate) fn bits_of(x: f64) -> u64
    ensures { result ≡ to_bits binary64 x }
{
    if x.is_nan() {
        return 0x7ff8000000000000;
    }
    x.to_bits()
}
