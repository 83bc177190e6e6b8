// The syndromes that a round of staged decoding brings: those of an unsettled subword are the syndromes of one word, a
// sum of multiples of all subwords, and come from its remainder. What the promises speak of stands in
// specs/Definition.antt, and for the round in staged_decoding's.
#![tactic(auto)]

pub mod lagrange;

ghost use Rattle.std.specs.Prelude.{◌*◌, ◌≤◌, ◌<◌, ◌≡◌, length};
ghost use Rattle.series.specs.Shift.{cut};
ghost use Rattle.series.specs.Array.{bytes};
ghost use Rattle.polynomial.specs.Polynomial.{row as Row};
ghost use Rattle.profile.specs.Definition.{checks};
ghost use Rattle.block.specs.Parts.{Fits};
ghost use Rattle.block.specs.Table.{table as Table};
ghost use Rattle.block.specs.CodewordDefinition.{Further};
ghost use Rattle.staged_decoding.specs.Definition.{Progress, window, extend as Extend};
ghost use Rattle.extend.specs.LagrangeDefinition.{flag};
ghost use Rattle.extend.specs.Definition.{merged, extended, Seen};

use field::Gf;
use polynomial::SYNDROMES;
use profile::{POSITIONS, Profile, SUBWORDS};

// The word whose syndromes are those of the unsettled subword i.
fn merge(p: Profile, pending: [bool; SUBWORDS], block: &[u8], i: usize) -> [u8; POSITIONS]
    requires { Fits p block.now }
    ensures { bytes result ≡ cut p.length (merged p (flag pending) (bytes block.now) i) }
{
    let m = p.subwords as usize;
    let mut word = [0u8; POSITIONS];
    for k in 0..m {
        let c = crate::lagrange::lagrange(p, pending, i, k);
        block::accumulate::add_multiple(p, c, block, k, &mut word);
    }
    word
}

// A row with entries `from` to `to` - 1 of another.
fn splice(s: [Gf; SYNDROMES], from: usize, to: usize, row: [Gf; SYNDROMES]) -> [Gf; SYNDROMES]
    requires { to ≤ 48 }
    ensures { Row result ≡ window from to (Row s) (Row row) }
{
    let mut out = row;
    for j in from..to {
        out[j] = s[j];
    }
    out
}

// The row of subword i after the round: a settled subword's stays.
fn extend_row(
    p: Profile,
    u: &[u64],
    pending: [bool; SUBWORDS],
    block: &[u8],
    i: usize,
    from: usize,
    to: usize,
    row: [Gf; SYNDROMES],
) -> [Gf; SYNDROMES]
    requires { Fits p block.now × Further p u.now × (0 < p.nested) × (2 * p.t0 ≤ from) × (to ≤ checks p 0)
        × (i < p.subwords) }
    ensures { Row result ≡ extended p from to pending (bytes block.now) i (Row row) }
{
    if !pending[i] {
        return row;
    }
    let n = p.length as usize;
    let first = p.first_root as usize;
    let past = first + 2 * p.t0 as usize;
    let k = block::codeword::further(p);
    let word = merge(p, pending, block, i);
    let left = divider::reed_solomon::residue(u, past, k, &word[..n]);
    splice(
        divider::evaluation::at_roots(first, &left[..k], to),
        from,
        to,
        row,
    )
}

// The rows of the unsettled subwords go on with syndromes `from` to `to` - 1, in the block as corrected so far, by the
// table for the further roots of nested words.
pub fn extend(
    p: Profile,
    u: &[u64],
    pending: [bool; SUBWORDS],
    block: &[u8],
    from: usize,
    to: usize,
    table: [[Gf; SYNDROMES]; SUBWORDS],
) -> [[Gf; SYNDROMES]; SUBWORDS]
    requires { Fits p block.now × Further p u.now × (0 < p.nested) × (2 * p.t0 ≤ from) × (to ≤ checks p 0) }
    ensures { (g : Progress) → Seen p pending block.now table g
        → Table result ≡ (Extend p from to g).row }
{
    let m = p.subwords as usize;
    let mut out = table;
    for i in 0..m {
        out[i] = extend_row(p, u, pending, block, i, from, to, table[i]);
    }
    out
}
