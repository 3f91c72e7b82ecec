// The survey grid of 1/2^k metre, k from 0 to 10.
#![tactic(auto)]

ghost use Rattle.std.specs.Prelude.{◌≡◌};
ghost use Rattle.grid.specs.Grid.{OnGrid, booked, is_on_grid, on_grid};

// The multiple of 2^-k nearest to x, exactly halfway the even one, zero as +0. Where k is above 10,
// and where x is not finite, x as it is.
//
// From 2^(52-k) up to twice that, neighbouring floats lie 2^-k apart. So the sum with 2^(52-k) is
// rounded to the grid, and the difference is exact. From 2^(52-k) on every float is on the grid.
#[tactic(auto, using(crate::proofs::GridNumbers::no_grid, crate::proofs::Lifted::word_exact, crate::proofs::Ways::rounded, crate::proofs::Ways::as_it_is))]
pub fn on_grid(k: u32, x: f64) -> f64
    ensures { result ≡ on_grid k x }
{
    if k > 10 {
        return x;
    }
    let lift = (1u64 << (52 - k)) as f64;
    let size = x.abs();
    if size < lift {
        // The sum with +0 is +0 where the rounded number is -0.
        return ((lift + size) - lift).copysign(x) + 0.0;
    }
    x
}

// The same by an overlay's grid: without one x as it is.
#[tactic(auto, unfolding(crate::specs::Grid::booked), using(crate::proofs::OnGrid::none_stands, crate::proofs::OnGrid::some_stands))]
pub fn booked(grid: Option<u32>, x: f64) -> f64
    ensures value { result ≡ booked grid x }
    ensures on_grid { OnGrid grid result }
{
    match grid {
        None => x,
        Some(k) => on_grid(k, x),
    }
}

// Whether x is a number, and a whole multiple of 2^-k.
#[tactic(auto, using(crate::proofs::Multiples::no_number, crate::proofs::Multiples::coarse, crate::proofs::Multiples::fine, crate::proofs::Multiples::finest))]
pub fn is_on_grid(k: u32, x: f64) -> bool
    ensures { result ≡ is_on_grid k x }
{
    if !exact::is_finite(x) {
        return false;
    }
    // In units of 2^-1074 a step is 2^step, and x is ±m · 2^e, m of 53 digits at most.
    let step = 1074u32.saturating_sub(k) as usize;
    let p = exact::take_apart(x);
    if step <= p.e {
        return true;
    }
    let places = step - p.e;
    if places < 53 {
        return p.m % (1u64 << places) == 0;
    }
    p.m == 0
}
