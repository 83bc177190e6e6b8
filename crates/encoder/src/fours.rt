// Four subwords at a time, nothing being carried to them: their remainders are found together, in little more than the
// time of one.
ghost use Rattle.std.specs.Prelude.{◌+◌, ◌≤◌, ◌<◌, ◌≡◌, All, length};
ghost use Rattle.series.specs.Series.{◌⊞◌, ◌⊠◌};
ghost use Rattle.series.specs.Shift.{zpow};
ghost use Rattle.series.specs.Array.{bytes};
ghost use Rattle.profile.specs.Definition.{first-root, checks as Checks, data_length as DataLength};
ghost use Rattle.divider.specs.GeneratorTable.{Table};
ghost use Rattle.divider.specs.Each.{Each};
ghost use Rattle.block.specs.Parts.{Fits};
ghost use Rattle.encoder.specs.CarrySubword.{Wrote};
ghost use Rattle.encoder.specs.Fours.{Known};

use polynomial::SYNDROMES;
use profile::{POSITIONS, Profile};

// Adds a list to a word, from position `at` on.
fn join(at: usize, from: &[u8], word: &mut [u8])
    requires { at + length from.now ≤ length word.old }
    ensures { bytes word.new ≡ bytes word.old ⊞ zpow at ⊠ bytes from.now }
{
    for q in 0..from.len() {
        word[at + q] ^= from[q];
    }
}

// The word that has the data from position k on, zeros before and after.
fn padded(k: usize, input: &[u8]) -> [u8; POSITIONS]
    requires { k + length input.now ≤ 255 }
    ensures { bytes result ≡ zpow k ⊠ bytes input.now }
{
    let mut word = [0u8; POSITIONS];
    join(k, input, &mut word);
    word
}

// The remainders of the words of n symbols with these data, the first root being α^first.
pub fn remainders(
    t: &[u64],
    first: usize,
    n: usize,
    k: usize,
    parts: [&[u8]; 4],
) -> [[u8; SYNDROMES]; 4]
    requires { Table first k t.now × (k ≤ 48) × (n ≤ 255) × All (λ d. k + length d.now ≡ n) parts }
    ensures { Each (λ d r. Known first n k d.now r) parts.entry result }
{
    let w = padded(k, parts[0]);
    let x = padded(k, parts[1]);
    let y = padded(k, parts[2]);
    let z = padded(k, parts[3]);
    divider::reed_solomon::residues(t, first, k, [&w[..n], &x[..n], &y[..n], &z[..n]], n)
}

// Writes subword i, r being the remainder of its data.
pub fn write_known(p: Profile, k: usize, r: &[u8], i: usize, input: &[u8], out: &mut [u8])
    requires { Fits p out.old × (p.nested ≤ i) × (i < p.subwords) × (k ≡ Checks p i)
        × (length input.now ≡ DataLength p i) × Known (first-root p) p.length k input.now r.now }
    ensures { Wrote p (bytes input.now) i (bytes out.old) (bytes out.new) }
{
    let n = p.length as usize;
    let zeros = [0u8; POSITIONS];
    let mut word = padded(k, input);
    join(0, r, &mut word);
    let a = i * n;
    let b = a + n;
    crate::carry::place(0, &zeros[..n], &word[..n], &mut out[a..b]);
}
