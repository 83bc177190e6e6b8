// Binary BCH subwords of capability 3 (FORMAT 11): up to three wrong bits are corrected, or the subword is refused by
// number. The key equation is not iterated: its solution is had from direct formulas (`direct`), and the locations of
// the wrong bits are had from the locator by logarithms and two small tables (`locations`). They are put to the test:
// what comes out has zero syndromes. What the promises speak of stands in specs/Definition.antt.
#![tactic(auto)]

pub mod direct;
mod locations;
mod received;

ghost use Rattle.std.specs.Prelude.{◌≤◌, ◌≡◌, true, false, length};
ghost use Rattle.field.specs.Field.{val};
ghost use Rattle.series.specs.Series.{◌⊞◌};
ghost use Rattle.series.specs.Array.{bytes};
ghost use Rattle.binary.specs.Definition.{Bits, number_of, answer as Answer-of, found, reading};
ghost use Rattle.binary.specs.Definition.{answer_to, word_in};
ghost use Rattle.binary.specs.Changes.{Within, spike, changed, Tests, Locates};

use crate::locations::Locations;
pub use crate::received::Syndromes;
use field::Gf;
use profile::POSITIONS;

// The refusals, each after the question that said no.
#[derive(Clone, Copy, Debug, PartialEq, Eq)]
pub enum Refusal {
    Length,
    OutputSize,
    NotBinary,
    Uncorrectable,
}

// The number of a refusal: FORMAT 11.
impl From<Refusal> for u8 {
    ghost from_gives = { λ q n. n ≡ number_of q };

    fn from(q: Refusal) -> u8 {
        match q {
            Refusal::Length => 5,
            Refusal::OutputSize => 7,
            Refusal::NotBinary => 16,
            Refusal::Uncorrectable => 17,
        }
    }
}

// Whether a location is that of a position below n, or zero, which is none.
fn within(x: Gf, n: usize) -> bool
    ensures yes { result ≡ true → Within n (val x) }
    ensures no { result ≡ false → ¬ Within n (val x) }
{
    x.is_zero() || x.log().0 < n
}

// Puts locations to the test: they are below n, and their syndromes are these. Where one is not below n, no power is
// taken.
fn test(x: Locations, s: Syndromes, n: usize) -> bool
    ensures { Tests n (val s.s0) (val s.s2) (val s.s4) (val x.0) (val x.1) (val x.2) result }
{
    if !within(x.0, n) || !within(x.1, n) || !within(x.2, n) {
        return false;
    }
    let two = Syndromes::single(x.0).sum(Syndromes::single(x.1));
    let three = two.sum(Syndromes::single(x.2));
    three.sum(s).are_zero()
}

// The locations of the wrong bits of a word of n symbols with these syndromes, if this can be told. A word that has
// none is clean, and enters no formula; one whose locator is longer than three has more wrong bits than can be told.
fn locate(s: Syndromes, n: usize) -> Option<Locations>
    ensures { Locates n (val s.s0) (val s.s2) (val s.s4) result }
{
    if s.are_zero() {
        return Some(Locations::NONE);
    }
    let solved = direct::solve(s);
    if 3 < solved.length {
        return None;
    }
    let x = locations::of_locator(solved.locator, solved.length);
    test(x, s, n).then_some(x)
}

// Changes the bit at a location, if it is one.
fn flip(x: Gf, word: &mut [u8])
    requires { Within (length word.old) (val x) }
    ensures { bytes word.new ≡ bytes word.old ⊞ spike (val x) }
{
    if !x.is_zero() {
        word[x.log().0] ^= 1;
    }
}

// Writes a subword with the bits at these locations changed.
fn write(subword: &[u8], at: Locations, out: &mut [u8])
    requires { (length out.old ≡ length subword.now) × Within (length subword.now) (val at.0)
        × Within (length subword.now) (val at.1) × Within (length subword.now) (val at.2) }
    ensures { bytes out.new ≡ changed (bytes subword.now)
        (val at.0) (val at.1) (val at.2) }
{
    kernel::copy(subword, out);
    flip(at.0, out);
    flip(at.1, out);
    flip(at.2, out);
}

// Writes the word that fits, or refuses and leaves the output.
fn correct(subword: &[u8], out: &mut [u8]) -> Result<(), Refusal>
    requires { (length subword.now ≤ 255) × (length out.old ≡ length subword.now)
        × Bits (length subword.now) (bytes subword.now) }
    ensures answer { result ≡
        answer_to (found (Answer-of (length subword.now) (bytes subword.now))) }
    ensures word { out.new ≡ word_in (found (Answer-of (length subword.now)
        (bytes subword.now))) out.old }
{
    let s = received::even_syndromes(subword);
    let Some(at) = locate(s, subword.len()) else {
        return Err(Refusal::Uncorrectable);
    };
    write(subword, at, out);
    Ok(())
}

// Decodes a binary subword of 1 to 255 symbols, each 0 or 1, into an output of the same size: the one word that differs
// from it in at most three bits and is in the code of capability 3. Everything else is refused by the number of the
// first question that it fails, and the output keeps its bytes.
pub fn decode_binary(subword: &[u8], out: &mut [u8]) -> Result<(), Refusal>
    ensures answer { result ≡ answer_to (reading subword.now (length out.old)) }
    ensures word { out.new ≡
        word_in (reading subword.now (length out.old)) out.old }
{
    let n = subword.len();
    if n == 0 || POSITIONS < n {
        return Err(Refusal::Length);
    }
    if out.len() != n {
        return Err(Refusal::OutputSize);
    }
    if !received::is_binary(subword) {
        return Err(Refusal::NotBinary);
    }
    correct(subword, out)
}
