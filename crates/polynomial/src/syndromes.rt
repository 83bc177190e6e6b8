// Tables of 48 syndromes: an entry, a coefficient of the product with a polynomial, whether all are zero.
ghost use Rattle.std.specs.Prelude.{◌+◌, ◌≤◌, ◌≡◌};
ghost use Rattle.field.specs.Field.{◌⊙◌, val};
ghost use Rattle.series.specs.Series.{Series, ◌⊠◌};
ghost use Rattle.series.specs.Degree.{below};
ghost use Rattle.series.specs.Array.{bytes};
ghost use Rattle.series.specs.Decide.{holds};
ghost use Rattle.polynomial.specs.Polynomial.{poly, row as Row};
ghost use Rattle.polynomial.specs.SyndromesZero.{zero?};
ghost use Rattle.polynomial.specs.SyndromesReversed.{reversed as Reversed};

use crate::{COEFFICIENTS, SYNDROMES};
use field::Gf;

// The highest coefficient of a product that may differ from zero.
const HIGHEST: usize = 95;

// Room for 49 entries from any index up to HIGHEST on.
const REVERSED: usize = 144;

// Entry i of a table, and zero past its end.
pub fn coefficient(s: [Gf; SYNDROMES], i: usize) -> Gf
    ensures { val result ≡ Row s i }
{
    if i < SYNDROMES {
        return s[i];
    }
    Gf::ZERO
}

// The syndromes from 95 down, 48 zeros and S_47 to S_0, then zeros: coefficient r of a product reads them from index 95
// - r on.
pub fn reversed(s: [Gf; SYNDROMES]) -> [u8; REVERSED]
    ensures { bytes result ≡ Reversed 95 (Row s) }
{
    let mut down = [0u8; REVERSED];
    for i in SYNDROMES..HIGHEST + 1 {
        down[i] = s[HIGHEST - i].0;
    }
    down
}

// The products of coefficients with entries from `at` on, many at a time.
fn products(f: [Gf; COEFFICIENTS], t: &[u8; REVERSED], at: usize) -> [Gf; COEFFICIENTS]
    requires { at ≤ 95 }
    ensures { poly result ≡ (λ i. poly f i ⊙ bytes t.now (at + i)) }
{
    let mut out = [Gf::ZERO; COEFFICIENTS];
    for q in 0..crate::extent(f) {
        out[q] = kernel::product(f[q], Gf(t[at + q]));
    }
    out
}

// Coefficient r of the product of a polynomial and the series that t has reversed.
pub fn convolve_reversed(f: [Gf; COEFFICIENTS], t: &[u8; REVERSED], r: usize) -> Gf
    ensures { (g : Series) → below 48 g → bytes t.now ≡ Reversed 95 g → val result ≡ (poly f ⊠ g) r }
{
    if r > HIGHEST {
        return Gf::ZERO;
    }
    let p = products(f, t, HIGHEST - r);
    let mut d = Gf::ZERO;
    for x in &p {
        d = d.sum(*x);
    }
    d
}

// Coefficient r of the product of a polynomial and a table.
pub fn convolve(f: [Gf; COEFFICIENTS], s: [Gf; SYNDROMES], r: usize) -> Gf
    ensures { val result ≡ (poly f ⊠ Row s) r }
{
    let t = reversed(s);
    convolve_reversed(f, &t, r)
}

// Whether a table is zero: the pattern of zeros settles its subword, and no solver is needed.
pub fn is_zero(row: [Gf; SYNDROMES]) -> bool
    ensures { result ≡ holds (zero? row) }
{
    kernel::is_zero(&row)
}
