// The syndromes of the subwords of a block, from their remainders: four subwords at a time while four are left.
ghost use Rattle.std.specs.Prelude.{ℕ, ◌+◌, ◌*◌, ◌≤◌, ◌<◌, ◌≡◌};
ghost use Rattle.series.specs.Series.{Series};
ghost use Rattle.series.specs.Shift.{cut};
ghost use Rattle.series.specs.Array.{bytes};
ghost use Rattle.polynomial.specs.Polynomial.{row as Row};
ghost use Rattle.profile.specs.Definition.{first-root};
ghost use Rattle.divider.specs.GeneratorTable.{Table};
ghost use Rattle.code.specs.Word.{syndrome as Syndrome};
ghost use Rattle.divider.specs.ReedSolomonResidue.{residue as Residue};
ghost use Rattle.block.specs.Parts.{Fits};
ghost use Rattle.block.specs.Table.{table};
ghost use Rattle.code.specs.Check.{received};
ghost use Rattle.block.specs.ReceivedRows.{FirstRows};

use crate::part::subword;
use field::Gf;
use polynomial::SYNDROMES;
use profile::{Profile, SUBWORDS};

// The first k syndromes of a word, then zeros, from its remainder, the first root being α^first.
fn row(first: usize, r: [u8; SYNDROMES], k: usize) -> [Gf; SYNDROMES]
    requires { k ≤ 48 }
    ensures { (n : ℕ) (w : Series) → bytes r ≡ Residue first n k w → Row result ≡ cut k (Syndrome first n w) }
{
    divider::evaluation::at_roots(first, &r[..k], k)
}

// Stores the rows of the four subwords from i on in the table.
fn four(p: Profile, t: &[u64], block: &[u8], i: usize, rows: &mut [[Gf; SYNDROMES]; SUBWORDS])
    requires { Fits p block.now × Table (first-root p) (2 * p.t0) t.now × (i + 4 ≤ p.subwords) }
    ensures { FirstRows p (bytes block.now) i rows.old → FirstRows p (bytes block.now) (i + 4) rows.new }
{
    let first = p.first_root as usize;
    let k = 2 * p.t0 as usize;
    let words = [
        subword(p, block, i),
        subword(p, block, i + 1),
        subword(p, block, i + 2),
        subword(p, block, i + 3),
    ];
    let left = divider::reed_solomon::residues(t, first, k, words, p.length as usize);
    for j in 0..4 {
        rows[i + j] = row(first, left[j], k);
    }
}

// Stores the row of subword i in the table.
fn one(p: Profile, t: &[u64], block: &[u8], i: usize, rows: &mut [[Gf; SYNDROMES]; SUBWORDS])
    requires { Fits p block.now × Table (first-root p) (2 * p.t0) t.now × (i < p.subwords) }
    ensures { FirstRows p (bytes block.now) i rows.old → FirstRows p (bytes block.now) (i + 1) rows.new }
{
    let first = p.first_root as usize;
    rows[i] = divider::evaluation::syndromes(t, first, 2 * p.t0 as usize, subword(p, block, i));
}

// The syndromes j < 2 t0 of the subwords: eight rows of 48, unused entries zero.
pub fn syndromes(p: Profile, t: &[u64], block: &[u8]) -> [[Gf; SYNDROMES]; SUBWORDS]
    requires { Fits p block.now × Table (first-root p) (2 * p.t0) t.now }
    ensures { table result ≡ received p (bytes block.now) (2 * p.t0) }
{
    let m = p.subwords as usize;
    let mut out = [[Gf::ZERO; SYNDROMES]; SUBWORDS];
    for q in 0..m / 4 {
        four(p, t, block, 4 * q, &mut out);
    }
    for i in m / 4 * 4..m {
        one(p, t, block, i, &mut out);
    }
    out
}
