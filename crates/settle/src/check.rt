// The test that every pattern is put to, whoever puts it forward. The first root is α.
ghost use Rattle.std.specs.Prelude.{suc, ◌+◌, ◌≤◌, ◌<◌, ◌%◌, ◌≡◌, ◌≢◌, MatchOption, length};
ghost use Rattle.std.proofs.Math.Logic.{ite};
ghost use Rattle.field.specs.Field.{𝟎, ◌≟◌, pow, val};
ghost use Rattle.series.specs.Series.{K, ◌⊞◌, ◌⊠◌};
ghost use Rattle.series.specs.Shift.{cut};
ghost use Rattle.series.specs.Array.{values, bytes};
ghost use Rattle.series.specs.Decide.{holds};
ghost use Rattle.series.specs.Word.{weight};
ghost use Rattle.polynomial.specs.Polynomial.{row as Row};
ghost use Rattle.code.specs.Word.{root, syndrome};
ghost use Rattle.settling.specs.Definition.{Explains};
ghost use Rattle.settle.specs.Effect.{same?};

use crate::powers::Powers;
use field::{Exponent, Gf};
use polynomial::SYNDROMES;
use profile::POSITIONS;

// How many symbols a pattern changes, and its first syndromes.
#[derive(Clone, Copy)]
struct Effect {
    count: usize,
    syndromes: [u8; SYNDROMES],
}

// The sum of two exponents, modulo 255.
fn exponent(e: Exponent, x: Exponent) -> Exponent
    requires { (e.0 < 255) × (x.0 < 255) }
    ensures { result.0 ≡ (e.0 + x.0) % 255 }
{
    let s = e.0 + x.0;
    if s < 255 {
        Exponent(s)
    } else {
        Exponent(s - 255)
    }
}

// Adds the first m syndromes of a change y, which is not zero, at position p: each is a power of α, and its exponent p
// more than the one before, so that no lookup waits for another.
fn add_change(power: &Powers, p: usize, y: Gf, m: usize, to: &mut [u8])
    requires { (p < 255) × (val y ≢ 𝟎) × (m ≤ length to.old) }
    ensures { bytes to.new ≡ bytes to.old ⊞ K (val y) ⊠ cut m (λ j. pow (root 1 j) p) }
{
    let x = Exponent(p);
    let mut e = exponent(y.log(), x);
    for j in 0..m {
        to[j] ^= power.at(e).0;
        e = exponent(e, x);
    }
}

// Adds the first m syndromes of y at position p, if it is a change, and counts it.
fn count_change(power: &Powers, count: usize, p: usize, y: Gf, m: usize, to: &mut [u8]) -> usize
    requires { (count < 255) × (p < 255) × (m ≤ length to.old) }
    ensures { (result ≡ ite (val y ≟ 𝟎) count (suc count)) ×
        (bytes to.new ≡ bytes to.old ⊞ K (val y) ⊠ cut m (λ j. pow (root 1 j) p)) }
{
    if y.is_zero() {
        return count;
    }
    add_change(power, p, y, m, to);
    count + 1
}

// How many of the symbols below n a pattern changes, and its first m syndromes.
fn effect_of(pattern: [Gf; POSITIONS], n: usize, m: usize) -> Effect
    requires { (n ≤ 255) × (m ≤ 48) }
    ensures { (result.count ≡ weight n (values pattern))
        × (bytes result.syndromes ≡ cut m (syndrome 1 n (values pattern))) }
{
    let power = Powers::new();
    let mut syndromes = [0u8; SYNDROMES];
    let mut count = 0;
    for p in 0..n {
        count = count_change(&power, count, p, pattern[p], m, &mut syndromes);
    }
    Effect { count, syndromes }
}

// Whether the first m entries are the same.
fn agree(l: [u8; SYNDROMES], row: [Gf; SYNDROMES], m: usize) -> bool
    requires { m ≤ 48 }
    ensures { result ≡ holds (same? m (bytes l) (Row row)) }
{
    // A loop: by (0..m).all(..) the goal `returns` stays open.
    for i in 0..m {
        if l[i] != row[i].0 {
            return false;
        }
    }
    true
}

// Puts a pattern to the test: the symbols below n, and the first 2t syndromes of the row. How many symbols it changes,
// if it explains the row.
pub fn test(pattern: [Gf; POSITIONS], row: [Gf; SYNDROMES], n: usize, t: usize) -> Option<usize>
    requires { (n ≤ 255) × (t ≤ 24) }
    ensures { MatchOption result (¬ Explains 1 t n (Row row) (values pattern))
        (λ count. (count ≡ weight n (values pattern)) × Explains 1 t n (Row row) (values pattern)) }
{
    let m = 2 * t;
    let effect = effect_of(pattern, n, m);
    if effect.count <= t && agree(effect.syndromes, row, m) {
        Some(effect.count)
    } else {
        None
    }
}
