// One Reed-Solomon word: syndromes, check symbols, the remainder by the generator.
// What the promises speak of stands in code's specs/Word.antt: `systematic f n k w` is the word w with its k
// check symbols in place, the first root being α^f.
ghost use Rattle.std.specs.Prelude.{◌+◌, ◌-◌, ◌≤◌, ◌≡◌, All, length};
ghost use Rattle.series.specs.Series.{◌⊞◌};
ghost use Rattle.series.specs.Shift.{drop, cut};
ghost use Rattle.series.specs.Array.{bytes};
ghost use Rattle.divider.specs.Packed.{packed};
ghost use Rattle.divider.specs.Each.{Each};
ghost use Rattle.divider.specs.GeneratorTable.{Table};
ghost use Rattle.code.specs.Word.{systematic};
ghost use Rattle.divider.specs.ReedSolomonResidue.{residue as Residue, Residual};

use crate::packed::Packed;
use polynomial::SYNDROMES;

// Makes the first k symbols of a word the check symbols of the others, for the k roots from α^first on.
pub fn encode(t: &[u64], first: usize, k: usize, word: &mut [u8])
    requires { Table first k t.now × (k ≤ 48) × (k ≤ length word.old) }
    ensures { bytes word.new ≡
        systematic first (length word.old) k (bytes word.old) }
{
    let r = crate::division::remainder(t, word, k);
    let checks = crate::packed::unpack(r);
    let s = SYNDROMES - k;
    word[..k].copy_from_slice(&checks[s..]);
}

// The first k symbols of a word, the symbols at the top of a remainder added, then zeros.
fn difference(word: &[u8], k: usize, r: Packed) -> [u8; SYNDROMES]
    requires { (k ≤ 48) × (k ≤ length word.now) }
    ensures { bytes result ≡ cut k (bytes word.now ⊞ drop (48 - k) (packed r)) }
{
    let checks = crate::packed::unpack(r);
    let above = SYNDROMES - k;
    let mut out = [0u8; SYNDROMES];
    for q in 0..k {
        out[q] = word[q] ^ checks[above + q];
    }
    out
}

// The remainder of a word by the generator of the k roots from α^first on, zeros from k on. It is zero exactly if these
// syndromes are.
pub fn residue(t: &[u64], first: usize, k: usize, word: &[u8]) -> [u8; SYNDROMES]
    requires { Table first k t.now × (k ≤ 48) × (k ≤ length word.now) }
    ensures { bytes result ≡ Residue first (length word.now) k (bytes word.now) }
{
    difference(word, k, crate::division::remainder(t, word, k))
}

// The remainders of four words of length n: up to 32 roots they take little longer than one.
pub fn residues(
    t: &[u64],
    first: usize,
    k: usize,
    words: [&[u8]; 4],
    n: usize,
) -> [[u8; SYNDROMES]; 4]
    requires { Table first k t.now × (k ≤ 48) × (k ≤ n) × All (λ w. length w.now ≡ n) words }
    ensures { Each (λ w r. Residual first k w.now r) words.entry result }
{
    let left = crate::division::remainders(t, words, n, k);
    let mut out = [[0u8; SYNDROMES]; 4];
    for i in 0..4 {
        out[i] = difference(words[i], k, left[i]);
    }
    out
}
