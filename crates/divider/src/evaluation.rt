// Values of a short word at the roots, thirty-two at a time; a word's syndromes from its remainder.
ghost use Rattle.std.specs.Prelude.{◌+◌, ◌-◌, ◌%◌, ◌≤◌, ◌<◌, ◌≡◌, length};
ghost use Rattle.field.specs.Field.{◌⊕◌, ◌⊙◌, of};
ghost use Rattle.series.specs.Series.{K, ◌⊠◌};
ghost use Rattle.series.specs.Shift.{cut};
ghost use Rattle.series.specs.Array.{bytes};
ghost use Rattle.polynomial.specs.Polynomial.{row};
ghost use Rattle.divider.specs.GeneratorTable.{Table};
ghost use Rattle.code.specs.Word.{root as Root, syndrome as Syndrome};
ghost use Rattle.divider.specs.EvaluationLanes.{Lanes};

use field::{Exponent, Gf};
use polynomial::SYNDROMES;

// The roots from α on, field values and no exponents: entry j is α^(j+1). They, or multiples of them, are the points of
// Horner's rule, thirty-two at a time.
const ROOTS: [u8; 64] = *b"\x02\x04\x08\x10\x20\x40\x80\x1d\x3a\x74\xe8\xcd\x87\x13\x26\x4c\
    \x98\x2d\x5a\xb4\x75\xea\xc9\x8f\x03\x06\x0c\x18\x30\x60\xc0\x9d\
    \x27\x4e\x9c\x25\x4a\x94\x35\x6a\xd4\xb5\x77\xee\xc1\x9f\x23\x46\
    \x8c\x05\x0a\x14\x28\x50\xa0\x5d\xba\x69\xd2\xb9\x6f\xde\xa1\x5f";

// The 64 roots from α on: the table by what it means, so that no caller sees its entries.
fn first_roots() -> [u8; 64]
    ensures { bytes result ≡ cut 64 (Root 1) }
{
    ROOTS
}

// Each of 64 symbols times c: no table and no branch, so the compiler takes sixteen products at a time.
fn times(c: u8, list: [u8; 64]) -> [u8; 64]
    ensures { bytes result ≡ K (of c) ⊠ bytes list }
{
    let mut out = [0u8; 64];
    for j in 0..64 {
        out[j] = kernel::multiply(c, list[j]);
    }
    out
}

// The 64 roots from α^first on: those from α on times α^(first-1). Exponents count modulo 255, so that 254 stands for
// the one below 0.
fn roots(first: usize) -> [u8; 64]
    ensures { bytes result ≡ cut 64 (Root first) }
{
    let list = first_roots();
    if first == 1 {
        return list;
    }
    let c = Exponent(first % 255 + 254).power();
    times(c.0, list)
}

// A step of Horner's rule at the 32 points from point i on: no table and no branch, so the compiler takes sixteen
// products at a time. The points stay, so their doubles are found once for all symbols.
fn horner(x: &[u8], i: usize, v: [u8; 32], s: u8) -> [u8; 32]
    requires { i + 32 ≤ length x.now }
    ensures { bytes result ≡ cut 32 (λ j. bytes v j ⊙ bytes x.now (i + j) ⊕ of s) }
{
    let mut out = [0u8; 32];
    for j in 0..32 {
        out[j] = kernel::multiply(x[i + j], v[j]) ^ s;
    }
    out
}

// Values at the 32 points from point i on.
fn block(x: &[u8], r: &[u8], i: usize) -> [u8; 32]
    requires { i + 32 ≤ length x.now }
    ensures { Lanes (length r.now) (bytes r.now) x.now i result }
{
    let mut v = [0u8; 32];
    for p in (0..r.len()).rev() {
        // The borrow checker lets no call's result be laid straight into an array.
        let next = horner(x, i, v, r[p]);
        v = next;
    }
    v
}

// The block that the value at point i belongs to: this one, or the next if i begins it.
fn lanes(x: &[u8], r: &[u8], i: usize, v: [u8; 32]) -> [u8; 32]
    requires { (64 ≤ length x.now) × (i < 48)
        × (0 < i % 32 → Lanes (length r.now) (bytes r.now) x.now (i - i % 32) v) }
    ensures { Lanes (length r.now) (bytes r.now) x.now (i - i % 32) result }
{
    if i % 32 == 0 {
        return block(x, r, i);
    }
    v
}

// S_0 to S_(k-1) of a short word, as a remainder is, then zeros, the first root being α^first. No lanes are run for a
// word of zeros, as the remainder of a clean word is.
pub fn at_roots(first: usize, r: &[u8], k: usize) -> [Gf; SYNDROMES]
    requires { k ≤ 48 }
    ensures { row result ≡ cut k (Syndrome first (length r.now) (bytes r.now)) }
{
    if kernel::is_zero(r) {
        return [Gf::ZERO; SYNDROMES];
    }
    let x = roots(first);
    let mut out = [Gf::ZERO; SYNDROMES];
    let mut v = [0u8; 32];
    for i in 0..k {
        let u = lanes(&x, r, i, v);
        out[i] = Gf(u[i % 32]);
        v = u;
    }
    out
}

// S_0 to S_(k-1) of a word, then zeros: from its remainder, which is short, and zero if the word is clean.
pub fn syndromes(t: &[u64], first: usize, k: usize, word: &[u8]) -> [Gf; SYNDROMES]
    requires { Table first k t.now × (k ≤ 48) × (k ≤ length word.now) }
    ensures { row result ≡ cut k (Syndrome first (length word.now) (bytes word.now)) }
{
    let r = crate::reed_solomon::residue(t, first, k, word);
    at_roots(first, &r[..k], k)
}
