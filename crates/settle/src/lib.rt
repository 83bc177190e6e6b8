// Settling one subword: the pattern that a locator puts forward, by `candidate`, and its test, both with the first root
// α; then the pattern for the first root that is asked for, by `untwist`. What the promises speak of stands in
// settling's specs/Definition.antt, and for the answer in specs/Answer.antt.
#![tactic(auto)]

mod candidate;
mod check;
mod numerator;
mod positions;
mod powers;
pub mod untwist;

ghost use Rattle.std.specs.Prelude.{◌*◌, ◌≤◌, ◌≡◌, IfSome};
ghost use Rattle.polynomial.specs.Polynomial.{poly, row as Row};
ghost use Rattle.key_equation.specs.Run.{measure};
ghost use Rattle.key_equation.specs.Shortest.{length as Length};
ghost use Rattle.settling.specs.Definition.{settle as Settle};
ghost use Rattle.settling.specs.Candidate.{Multiple};
ghost use Rattle.settle.specs.Answer.{answer, Sound};

use field::Gf;
use polynomial::{COEFFICIENTS, SYNDROMES};
use profile::POSITIONS;

// The terms of a locator of 24 changes.
const TERMS: usize = 25;

// The pattern that settles a subword, and how many symbols it changes.
#[derive(Clone, Copy)]
pub struct Settled {
    pub count: u8,
    pub pattern: [Gf; POSITIONS],
}

// Settles a subword as `settle` does, with the first root α.
fn settle_at_alpha(
    locator: [Gf; COEFFICIENTS],
    length: usize,
    row: [Gf; SYNDROMES],
    n: usize,
    t: usize,
) -> Option<Settled>
    requires { (n ≤ 255) × (t ≤ 24) }
    ensures sound { IfSome result (Sound 1 t n (Row row)) }
    ensures settled { Multiple (poly locator) (measure (Row row) (2 * t)).Λ
        → length ≡ Length (Row row) (2 * t) → answer n result ≡ Settle 1 t n (Row row) }
{
    if t < length {
        return None;
    }
    let numerator = crate::numerator::numerator(locator, row, length);
    let pattern = crate::candidate::locate(locator, &numerator[..length], length, n)?;
    let count = check::test(pattern, row, n, t)?;
    Some(Settled {
        count: count as u8,
        pattern,
    })
}

// The first root is α^first. The subword has n symbols; of its syndromes the first 2t count. Whatever the locator and
// its length are, the pattern that is found explains them. If they are the key-equation solver's after these syndromes,
// in any of its forms, the answer is what settles the subword. No solver sees the first root: with another one the same
// positions change, by other values.
pub fn settle(
    first: u8,
    locator: [Gf; COEFFICIENTS],
    length: usize,
    row: [Gf; SYNDROMES],
    n: usize,
    t: usize,
) -> Option<Settled>
    requires { (n ≤ 255) × (t ≤ 24) }
    ensures sound { IfSome result (Sound first t n (Row row)) }
    ensures settled { Multiple (poly locator) (measure (Row row) (2 * t)).Λ
        → length ≡ Length (Row row) (2 * t) → answer n result ≡ Settle first t n (Row row) }
{
    let settled = settle_at_alpha(locator, length, row, n, t)?;
    if first == 1 {
        return Some(settled);
    }
    Some(Settled {
        pattern: crate::untwist::untwist(first, settled.pattern, n),
        ..settled
    })
}
