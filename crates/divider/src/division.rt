// Remainders by a polynomial of degree 48, packed in words: one row of a lent table a symbol.
// The rows are narrow up to degree 32 and wide above: that is asked once, outside of the loops.
ghost use Rattle.std.specs.Prelude.{◌≤◌, ◌≡◌, All, length};
ghost use Rattle.field.specs.Field.{of};
ghost use Rattle.divider.specs.Packed.{packed};
ghost use Rattle.divider.specs.Multiples.{rows, lower, Multiples};
ghost use Rattle.divider.specs.DivisionRemainder.{feed};
ghost use Rattle.divider.specs.DivisionLeaves.{Leaves};
ghost use Rattle.divider.specs.Each.{Each};

use crate::multiples::{Narrow, Wide, Width};
use crate::packed::Packed;

// Moves the state one symbol up and adds the row that takes the last symbol away.
fn step<W: Width>(t: &[u64], r: Packed, x: u8) -> Packed
    requires { Multiples W.row_at t.now }
    ensures { packed result ≡ feed (lower W.row_at t.now) (packed r) (of x) }
{
    crate::packed::shifted(r, W::row(t, crate::packed::index(r, x)))
}

// What z^48 times the symbols from `from` on leaves of each of some words of length n, from the last symbol down. A
// pass takes a step of each word: no step waits for another, so the other words are nearly free.
fn leave<W: Width, const N: usize>(t: &[u64], words: &[&[u8]], n: usize, from: usize) -> [Packed; N]
    requires { Multiples W.row_at t.now × (from ≤ n) × (length words.now ≡ N) × All (λ w. length w.now ≡ n) words.now }
    ensures { Each (λ w r. Leaves W.row_at t.now from w.now r) words.now result }
{
    let mut out = [Packed(0, 0, 0, 0, 0, 0); N];
    for p in (from..n).rev() {
        for i in 0..N {
            out[i] = step::<W>(t, out[i], words[i][p]);
        }
    }
    out
}

// What z^48 times the symbols from k on leaves by the polynomial of a table for degree k.
pub fn remainder(t: &[u64], word: &[u8], k: usize) -> Packed
    requires { Multiples (rows k) t.now × (k ≤ length word.now) }
    ensures { Leaves (rows k) t.now k word.now result }
{
    if k <= 32 {
        leave::<Narrow, 1>(t, &[word], word.len(), k)[0]
    } else {
        leave::<Wide, 1>(t, &[word], word.len(), k)[0]
    }
}

// What the same leaves of each of four words of length n. Wide rows are taken for two words at a time: no more fit
// into the registers.
pub fn remainders(t: &[u64], words: [&[u8]; 4], n: usize, k: usize) -> [Packed; 4]
    requires { Multiples (rows k) t.now × (k ≤ n) × All (λ w. length w.now ≡ n) words }
    ensures { Each (λ w r. Leaves (rows k) t.now k w.now r) words.entry result }
{
    if k <= 32 {
        leave::<Narrow, 4>(t, &words, n, k)
    } else {
        let [first, second] = leave::<Wide, 2>(t, &words[..2], n, k);
        let [third, fourth] = leave::<Wide, 2>(t, &words[2..], n, k);
        [first, second, third, fourth]
    }
}
