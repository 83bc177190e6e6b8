// What calls of the codec come to together. Each function here makes the calls that a headline is about, and its
// promise is the headline; no program needs them. specs/Theorems.antt states the same without calls.
#![tactic(auto)]

ghost use Rattle.std.specs.Prelude.{◌<◌, ◌≡◌, length};
ghost use Rattle.polynomial.specs.Polynomial.{row};
ghost use Rattle.theorems.specs.Theorems.{Trip as RoundTrip, Both as EndAlike, SumOf};

use decoder::prepared::Reading;
use field::Gf;
use polynomial::SYNDROMES;
use profile::Refusal;
use solver::Form;

// The answer of a writer, and what a reader hands back.
#[derive(Clone, Copy)]
pub struct Trip {
    pub written: Result<(), Refusal>,
    pub read: Reading,
}

// Two readings.
#[derive(Clone, Copy)]
pub struct Pair {
    pub one: Reading,
    pub other: Reading,
}

// A reading, and the value of an error in two ways.
#[derive(Clone, Copy)]
pub struct Values {
    pub read: Reading,
    pub evaluator: Gf,
    pub auxiliary: Gf,
}

// Writes data, and reads the data of a block that was received: if it is the written one but for changes within the
// condition of FORMAT 6.11, the data are the same, byte for byte.
pub fn round_trip(
    profile: &[u8],
    data: &[u8],
    block: &mut [u8],
    received: &[u8],
    out: &mut [u8],
    form: Form,
) -> Trip
    ensures { RoundTrip profile.now «data».now block.new
        received.now (length out.old) out.new result }
{
    let a = encoder::encode(profile, data, block);
    let r = decoder::extract(profile, received, out, form);
    Trip {
        written: a,
        read: r,
    }
}

// Reads the same bytes twice, in two forms, to outputs that held the same: both readings end alike.
pub fn both(
    profile: &[u8],
    input: &[u8],
    out: &mut [u8],
    second: &mut [u8],
    f: Form,
    g: Form,
) -> Pair
    requires { second.old ≡ out.old }
    ensures { EndAlike f g profile.now input.now (length out.old)
        out.new second.new result }
{
    let a = decoder::decode(profile, input, out, f);
    let c = decoder::decode(profile, input, second, g);
    Pair { one: a, other: c }
}

// Reads a block, and takes the value of the error at position q of subword i in both ways, from the state that the
// report holds: where the subword was corrected, and the received and the corrected symbol differ, both are their sum.
// `first` says the first root, k how many syndromes the subword was settled by, and `syndromes` are these.
pub fn error_values(
    profile: &[u8],
    input: &[u8],
    out: &mut [u8],
    form: Form,
    i: usize,
    first: u8,
    k: u8,
    syndromes: [Gf; SYNDROMES],
    q: u8,
) -> Values
    requires { i < 8 }
    ensures { SumOf form profile.now input.now out.new i
        first k (row syndromes) q result }
{
    let r = decoder::decode(profile, input, out, form);
    let report = r.report;
    let lines = report.lines;
    let line = lines[i];
    let s = line.solver;
    Values {
        read: r,
        evaluator: error_values::by_evaluator(first, s, k, syndromes, q),
        auxiliary: error_values::by_auxiliary(first, s, k, syndromes, q),
    }
}
