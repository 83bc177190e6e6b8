// One subword, written once those above it are: it is e plus the Reed-Solomon word of the data plus e, e being what the
// subwords above bring to it.
ghost use Rattle.std.specs.Prelude.{◌+◌, ◌≤◌, ◌<◌, ◌≡◌, length};
ghost use Rattle.field.specs.Field.{α, ◌⊙◌, pow, of};
ghost use Rattle.series.specs.Series.{K, ◌⊞◌, ◌⊠◌};
ghost use Rattle.series.specs.Shift.{cut, drop};
ghost use Rattle.series.specs.Array.{bytes};
ghost use Rattle.profile.specs.Definition.{first-root, checks as Checks, data_length as DataLength};
ghost use Rattle.divider.specs.GeneratorTable.{Table};
ghost use Rattle.code.specs.Triangle.{carried as Carried, corner as Corner};
ghost use Rattle.block.specs.Parts.{Fits};
ghost use Rattle.encoder.specs.CarrySubword.{filled, Wrote};

use profile::{POSITIONS, Profile};

// α^l times a symbol.
fn raised(l: usize, x: u8) -> u8
    requires { (1 ≤ l) × (l ≤ 2) }
    ensures { of result ≡ pow α l ⊙ of x }
{
    let y = kernel::twice(x);
    if l == 1 {
        return y;
    }
    kernel::twice(y)
}

// A step of Pascal's rule: α^l times the word, and another word. Nothing is promised of a word past the last one that
// is asked for.
fn rise(l: usize, last: usize, from: &[u8], word: &mut [u8])
    requires { (1 ≤ l) × (l ≤ 2) × (length from.now ≡ length word.old) }
    ensures { l ≤ last
        → bytes word.new ≡ K (pow α l) ⊠ bytes word.old ⊞ bytes from.now }
{
    if last < l {
        return;
    }
    for q in 0..word.len() {
        word[q] = raised(l, word[q]) ^ from[q];
    }
}

// Subword i with what the subwords above bring to it, i below v. By Pascal's rule, from the last subword to the first:
// that takes doublings only, and the subwords below i fall out.
fn corner(p: Profile, i: usize, block: &[u8]) -> [u8; POSITIONS]
    requires { Fits p block.now × (i < p.nested) }
    ensures { bytes result ≡ cut p.length (Corner p (bytes block.now) i) }
{
    let mut a = [0u8; POSITIONS];
    let mut b = [0u8; POSITIONS];
    let mut c = [0u8; POSITIONS];
    for j in (0..p.subwords as usize).rev() {
        rise(2, i, &b, &mut c);
        rise(1, i, &a, &mut b);
        block::accumulate::add_subword(p, block, j, &mut a);
    }
    if i == 0 {
        return a;
    }
    if i == 1 {
        return b;
    }
    c
}

// What the subwords above i bring to subword i: nothing from subword v on.
fn carried(p: Profile, i: usize, block: &[u8]) -> [u8; POSITIONS]
    requires { Fits p block.now × (i < p.subwords) }
    ensures { bytes result ≡ cut p.length (Carried p (bytes block.now) i) }
{
    if p.nested as usize <= i {
        return [0u8; POSITIONS];
    }
    let mut word = corner(p, i, block);
    block::accumulate::add_subword(p, block, i, &mut word);
    word
}

// Puts the data plus e into the word, from position k on; nothing is promised of the first k.
pub fn place(k: usize, e: &[u8], input: &[u8], word: &mut [u8])
    requires { (length word.old ≡ k + length input.now) × (length e.now ≡ length word.old) }
    ensures { drop k (bytes word.new) ≡
        bytes input.now ⊞ drop k (bytes e.now) }
{
    for q in 0..input.len() {
        word[k + q] = input[q] ^ e[k + q];
    }
}

// Fills the word with e plus the Reed-Solomon word of the data plus e, the first root being α^first.
fn fill(t: &[u64], first: usize, k: usize, e: &[u8], input: &[u8], word: &mut [u8])
    requires { Table first k t.now × (k ≤ 48) × (length word.old ≡ k + length input.now)
        × (length e.now ≡ length word.old) }
    ensures { bytes word.new ≡
        filled first (length word.old) k (bytes input.now) (bytes e.now) }
{
    place(k, e, input, word);
    divider::reed_solomon::encode(t, first, k, word);
    kernel::add(e, word);
}

// Writes subword i, once those above it are written; nothing is promised of those below it, which are written later.
pub fn write_subword(p: Profile, t: &[u64], i: usize, input: &[u8], out: &mut [u8])
    requires { Fits p out.old × (i < p.subwords) × Table (first-root p) (Checks p i) t.now
        × (length input.now ≡ DataLength p i) }
    ensures { Wrote p (bytes input.now) i (bytes out.old) (bytes out.new) }
{
    let n = p.length as usize;
    let first = p.first_root as usize;
    let k = p.checks(i as u8) as usize;
    let e = carried(p, i, &out[..]);
    let a = i * n;
    let b = a + n;
    fill(t, first, k, &e[..n], input, &mut out[a..b]);
}
