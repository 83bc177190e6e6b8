// The numerator of the changes: the first coefficients of a locator times a table of syndromes, many at a time.
ghost use Rattle.std.specs.Prelude.{◌+◌, ◌≤◌, ◌≡◌, length};
ghost use Rattle.field.specs.Field.{val};
ghost use Rattle.series.specs.Series.{K, ◌⊞◌, ◌⊠◌};
ghost use Rattle.series.specs.Shift.{zpow, cut};
ghost use Rattle.series.specs.Array.{bytes};
ghost use Rattle.polynomial.specs.Polynomial.{poly, row as Row};

use crate::TERMS;
use field::Gf;
use polynomial::{COEFFICIENTS, SYNDROMES};

// How many syndromes a term is multiplied with: more than the numerator needs, so that many are taken at a time.
const LANES: usize = 32;

// Adds the locator's coefficient c at z^a times the first 32 syndromes.
fn add_term(c: Gf, a: usize, row: [Gf; SYNDROMES], to: &mut [u8])
    requires { a + 32 ≤ length to.old }
    ensures { bytes to.new ≡ bytes to.old ⊞ zpow a ⊠ cut 32 (K (val c) ⊠ Row row) }
{
    for j in 0..LANES {
        to[a + j] ^= kernel::multiply(c.0, row[j].0);
    }
}

// The first m bytes of a word, then zeros.
fn first_bytes(from: &[u8], m: usize) -> [u8; TERMS]
    requires { (m ≤ 25) × (m ≤ length from.now) }
    ensures { bytes result ≡ cut m (bytes from.now) }
{
    let mut out = [0u8; TERMS];
    out[..m].copy_from_slice(&from[..m]);
    out
}

// The first m coefficients of the locator times the syndromes: those of the locator's first m terms.
pub fn numerator(locator: [Gf; COEFFICIENTS], row: [Gf; SYNDROMES], m: usize) -> [u8; TERMS]
    requires { m ≤ 25 }
    ensures { bytes result ≡ cut m (poly locator ⊠ Row row) }
{
    let mut sum = [0u8; TERMS + LANES];
    for i in 0..m {
        add_term(locator[i], i, row, &mut sum);
    }
    first_bytes(&sum, m)
}
