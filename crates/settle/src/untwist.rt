// A pattern that was found with the first root α, made the one for another first root, α^first: each change times its
// location to the power 1 - first. What the promises speak of stands in settling's specs/Twist.antt.
ghost use Rattle.std.specs.Prelude.{◌-◌, ◌≤◌, ◌<◌, ◌≡◌};
ghost use Rattle.field.specs.Field.{◌⊙◌, val};
ghost use Rattle.series.specs.Shift.{cut};
ghost use Rattle.series.specs.Array.{values};
ghost use Rattle.settling.specs.Twist.{inverse_multiplier, untwist as Untwist};

use crate::powers::Powers;
use field::{Exponent, Gf};
use profile::POSITIONS;

// The number 1 - first modulo 255, which counts as an exponent, and is not negative.
pub fn less(first: u8) -> usize
    ensures { result ≡ 256 - first }
{
    256 - first as usize
}

// The location of position p to the power 1 - first.
fn inverse_multiplier(power: &Powers, first: u8, p: usize) -> Gf
    requires { p < 255 }
    ensures { val result ≡ inverse_multiplier first p }
{
    let e = p * less(first);
    power.at(Exponent(e % 255))
}

// The symbol y at position p. Most are zero, and stay so.
fn change(power: &Powers, first: u8, p: usize, y: Gf) -> Gf
    requires { p < 255 }
    ensures { val result ≡ inverse_multiplier first p ⊙ val y }
{
    if y.is_zero() {
        y
    } else {
        kernel::product(inverse_multiplier(power, first, p), y)
    }
}

// The first n symbols of a pattern, each times its location to the power 1 - first, then zeros.
pub fn untwist(first: u8, pattern: [Gf; POSITIONS], n: usize) -> [Gf; POSITIONS]
    requires { n ≤ 255 }
    ensures { values result ≡ cut n (Untwist first (values pattern)) }
{
    let power = Powers::new();
    let mut out = [Gf::ZERO; POSITIONS];
    for p in 0..n {
        out[p] = change(&power, first, p, pattern[p]);
    }
    out
}
