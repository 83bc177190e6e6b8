// The error pattern that a locator puts forward, whatever the locator is. What the promises speak of stands in
// settling's specs/Candidate.antt, and for the walk over the positions in specs/CandidateLocated.antt.
// One root is found by logarithms. For more a walk over the locator's values at all positions: where it is zero, the
// locator and the numerator put a change forward.
ghost use Rattle.std.specs.Prelude.{◌+◌, ◌≤◌, ◌≡◌, ◌≢◌, length};
ghost use Rattle.field.specs.Field.{𝟎, ◌⊙◌, inv, val};
ghost use Rattle.series.specs.Value.{value};
ghost use Rattle.series.specs.Array.{bytes};
ghost use Rattle.polynomial.specs.Polynomial.{poly};
ghost use Rattle.settling.specs.Locator.{W};
ghost use Rattle.settle.specs.CandidateLocated.{Walked};

use field::{Exponent, Gf};
use polynomial::COEFFICIENTS;
use profile::POSITIONS;

// Forney's formula at position p: one row of products serves both values. Every root comes here, so the two products
// read no table.
fn forney(p: usize, denominator: &[u8], numerator: &[u8]) -> Gf
    requires { p ≤ 255 }
    ensures { val result ≡
        W p ⊙ value (length numerator.now) (bytes numerator.now) (W p)
        ⊙ inv (value (length denominator.now) (bytes denominator.now) (W p)) }
{
    let w = Exponent(255 - p).power();
    let row = kernel::product_row(w);
    let top = kernel::value(&row, numerator);
    let bottom = kernel::value(&row, denominator);
    let scaled = kernel::product(w, top);
    kernel::product(scaled, bottom.inverse())
}

// Walks the positions from 0 on, until no root is missing, or the positions that are left are fewer than the roots that
// are.
fn walk(
    locator: [Gf; COEFFICIENTS],
    numerator: &[u8],
    roots: usize,
    n: usize,
) -> Option<[Gf; POSITIONS]>
    requires { (roots ≤ 24) × (n ≤ 255) × (length numerator.now ≤ roots + 1) }
    ensures { Walked n (roots + 1) roots (poly locator) (bytes numerator.now) result }
{
    let k = roots + 1;
    let values = crate::positions::at_positions(locator, k);
    let odds = polynomial::coefficients::odd(locator, k);
    let mut pattern = [Gf::ZERO; POSITIONS];
    let mut missing = roots;
    for p in 0..n {
        if missing == 0 {
            return Some(pattern);
        }
        if n - p < missing {
            return None;
        }
        if values[p].is_zero() {
            pattern[p] = forney(p, &odds[..k], numerator);
            missing -= 1;
        }
    }
    if missing == 0 { Some(pattern) } else { None }
}

// A locator of two terms has its one root at W p if its second coefficient is α^p times its first one: logarithms give
// p. There the odd part is W p times the second coefficient, so that the change is the numerator's value divided by
// that.
fn locate_one(locator: [Gf; COEFFICIENTS], numerator: &[u8], n: usize) -> Option<[Gf; POSITIONS]>
    requires { (n ≤ 255) × (length numerator.now ≤ 2) × (poly locator 0 ≢ 𝟎) × (poly locator 1 ≢ 𝟎) }
    ensures { Walked n 2 1 (poly locator) (bytes numerator.now) result }
{
    let a = locator[0];
    let b = locator[1];
    let i = a.log();
    let j = b.log();
    let p = (j.0 + (255 - i.0)) % 255;
    if n <= p {
        return None;
    }
    let mut pattern = [Gf::ZERO; POSITIONS];
    let top = kernel::value(&Exponent(255 - p).power(), numerator);
    pattern[p] = kernel::product(top, b.inverse());
    Some(pattern)
}

// The pattern that a locator puts forward: one root is found at once, more by the walk.
pub fn locate(
    locator: [Gf; COEFFICIENTS],
    numerator: &[u8],
    roots: usize,
    n: usize,
) -> Option<[Gf; POSITIONS]>
    requires { (roots ≤ 24) × (n ≤ 255) × (length numerator.now ≤ roots + 1) }
    ensures { Walked n (roots + 1) roots (poly locator) (bytes numerator.now) result }
{
    if roots == 1 && !locator[0].is_zero() && !locator[1].is_zero() {
        return locate_one(locator, numerator, n);
    }
    walk(locator, numerator, roots, n)
}
