// The evaluator's value at an inverse location w, with no evaluator made: w^k times one coefficient of a product is
// enough (specs/OmegaValue.antt).
ghost use Rattle.std.specs.Prelude.{◌≤◌, ◌≡◌};
ghost use Rattle.field.specs.Field.{val};
ghost use Rattle.series.specs.Shift.{cut};
ghost use Rattle.polynomial.specs.Polynomial.{poly, row as Row};
ghost use Rattle.kernel.specs.ProductRow.{factor};
ghost use Rattle.settling.specs.ErrorValue.{Ω_at};
ghost use Rattle.error_values.specs.OmegaValue.{quotient};

use field::{Exponent, Gf};
use kernel::Multiplier;
use polynomial::{COEFFICIENTS, SYNDROMES};

// The syndromes times x/(1 + xz), x being the row's factor: one lookup a syndrome.
fn divided(row: &kernel::Row, s: [Gf; SYNDROMES]) -> [Gf; SYNDROMES]
    ensures { Row result ≡ cut 48 (quotient (factor row.now.products) (Row s)) }
{
    let mut out = [Gf::ZERO; SYNDROMES];
    let mut v: u8 = 0;
    for j in 0..SYNDROMES {
        v = row.times(v ^ s[j].0);
        out[j] = Gf(v);
    }
    out
}

// The powers below k of the locator times the syndromes, at the inverse location of position p.
pub fn value(locator: [Gf; COEFFICIENTS], s: [Gf; SYNDROMES], k: usize, p: u8) -> Gf
    requires { k ≤ 48 }
    ensures { val result ≡ Ω_at k (poly locator) (Row s) p }
{
    if k == 0 {
        return Gf::ZERO;
    }
    let row = kernel::product_row(Exponent(p as usize).power());
    let d = polynomial::syndromes::convolve(locator, divided(&row, s), k - 1);
    kernel::product(crate::inverse_power(p, k), d)
}
