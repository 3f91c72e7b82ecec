// Refusal 3: the coordinates.
ghost use Rattle.std.specs.Prelude.{◌≡◌};
ghost use Rattle.entry.specs.Refused.{coord_ok, coords_ok};

// 2^40: no coordinate is larger in size.
const MOST: f64 = 1099511627776.0;

#[tactic(auto, using(crate::proofs::Coord::zero_sign, crate::proofs::Coord::within))]
fn coord_ok(x: f64) -> bool
    ensures { result ≡ coord_ok x }
{
    if x == 0.0 {
        return !x.is_sign_negative();
    }
    x.abs() <= MOST
}

#[tactic(auto, unfolding(crate::specs::Refused::coords_ok))]
pub(crate) fn coords_ok(coords: &[f64]) -> bool
    ensures { result ≡ coords_ok coords.now }
{
    coords.iter().copied().all(coord_ok)
}
