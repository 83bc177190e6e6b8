// The codeword check, and the tables that a block is divided by. What the promises speak of stands in
// specs/CodewordDefinition.antt.
ghost use Rattle.std.specs.Prelude.{◌*◌, ◌<◌, ◌≡◌, length};
ghost use Rattle.series.specs.Shift.{cut};
ghost use Rattle.series.specs.Array.{bytes};
ghost use Rattle.series.specs.Decide.{holds};
ghost use Rattle.profile.specs.Valid.{Valid};
ghost use Rattle.code.specs.Definition.{nested};
ghost use Rattle.code.specs.Encoding.{codeword?};
ghost use Rattle.block.specs.Parts.{Fits};
ghost use Rattle.code.specs.Check.{Subwords, received};
ghost use Rattle.block.specs.Table.{table};
ghost use Rattle.block.specs.CodewordDefinition.{further as Count, Tables, Further, zeros?, Remainders};

use field::Gf;
use polynomial::SYNDROMES;
use profile::{NESTED, POSITIONS, Profile, SUBWORDS};

// How many roots nested word 0 has past the 2 t0 of the subwords.
pub fn further(p: Profile) -> usize
    requires { Valid p }
    ensures { result ≡ Count p }
{
    p.checks(0) as usize - 2 * p.t0 as usize
}

// The tables for a profile: for the roots of the subwords, and for the further roots of nested words. They serve any
// number of blocks. Words of the arrays that are no table's are left open, as by `divider::generator::table`.
pub fn tables(p: Profile, t: &mut [u64], u: &mut [u64])
    requires { Valid p × (length t.old ≡ 1536) × (length u.old ≡ 1536) }
    ensures { Tables p t.new u.new }
{
    let first = p.first_root as usize;
    let k = 2 * p.t0 as usize;
    divider::generator::table(first, k, t);
    if p.nested == 0 {
        return;
    }
    divider::generator::table(first + k, further(p), u);
}

// Whether a table of syndromes is zero.
fn is_zero(rows: [[Gf; SYNDROMES]; SUBWORDS]) -> bool
    ensures { result ≡ holds (zeros? rows) }
{
    for row in &rows {
        if !polynomial::syndromes::is_zero(*row) {
            return false;
        }
    }
    true
}

// Nested word l; zeros if there is none.
fn word(p: Profile, block: &[u8], l: usize) -> [u8; POSITIONS]
    requires { Fits p block.now }
    ensures { (length result ≡ 255)
        × (l < p.nested → bytes result ≡ cut p.length (nested p (bytes block.now) l)) }
{
    if l < p.nested as usize {
        return crate::nested::nested_word(p, block, l);
    }
    [0u8; POSITIONS]
}

// The remainders of the nested words by their further roots: all in one pass, which takes little longer than one of
// them.
fn remainders(p: Profile, u: &[u64], block: &[u8]) -> [[u8; SYNDROMES]; NESTED]
    requires { Fits p block.now × Further p u.now }
    ensures { Remainders p (bytes block.now) result }
{
    if p.nested == 0 {
        return [[0u8; SYNDROMES]; NESTED];
    }
    let n = p.length as usize;
    let first = p.first_root as usize + 2 * p.t0 as usize;
    let a = word(p, block, 0);
    let b = word(p, block, 1);
    let c = word(p, block, 2);
    let words = [&a[..n], &b[..n], &c[..n], &c[..n]];
    let [x, y, z, _] = divider::reed_solomon::residues(u, first, further(p), words, n);
    [x, y, z]
}

// Whether a block whose subwords are in the code of t0 is a codeword: the nested words and their syndromes from number
// 2 t0 on are walked up to the first that is not zero. Those before are zero. The syndromes are those of a word's
// remainder, found for all roots at once.
pub fn is_codeword(p: Profile, u: &[u64], block: &[u8]) -> bool
    requires { Fits p block.now × Subwords p (bytes block.now) × Further p u.now }
    ensures { result ≡ holds (codeword? p (bytes block.now)) }
{
    let v = p.nested as usize;
    let first = p.first_root as usize;
    let low = 2 * p.t0 as usize;
    let k = further(p);
    let rows = remainders(p, u, block);
    for l in 0..v {
        let r = rows[l];
        let checks = p.checks(l as u8) as usize;
        let row = divider::evaluation::at_roots(first, &r[..k], checks);
        for s in &row[low..checks] {
            if !s.is_zero() {
                return false;
            }
        }
    }
    true
}

// Whether a block with these syndromes j < 2 t0 of its subwords is a codeword: if they are all zero, the nested words
// are looked at.
pub fn is_clean(p: Profile, u: &[u64], rows: [[Gf; SYNDROMES]; SUBWORDS], block: &[u8]) -> bool
    requires { Fits p block.now × Further p u.now × (table rows ≡ received p (bytes block.now) (2 * p.t0)) }
    ensures { result ≡ holds (codeword? p (bytes block.now)) }
{
    if !is_zero(rows) {
        return false;
    }
    is_codeword(p, u, block)
}
