// Reading a block of an accepted profile: staged decoding, the block with its report, or a refusal. What the promises
// speak of stands in specs/Definition.antt.
ghost use Rattle.std.specs.Prelude.{◌*◌, ◌≡◌, IfOk, length};
ghost use Rattle.series.specs.Series.{Series};
ghost use Rattle.series.specs.Array.{bytes};
ghost use Rattle.block.specs.Parts.{Fits};
ghost use Rattle.code.specs.Check.{Subwords, received};
ghost use Rattle.block.specs.Table.{table};
ghost use Rattle.block.specs.CodewordDefinition.{Tables, Further};
ghost use Rattle.staged_decoding.specs.Definition.{decode as Decode};
ghost use Rattle.staged_decoding.specs.Clean.{untouched};
ghost use Rattle.stages.specs.Report.{Counted, Tells};
ghost use Rattle.stages.specs.View.{Reached};
ghost use Rattle.decoder.specs.Definition.{concluded, Gives};

use field::Gf;
use polynomial::SYNDROMES;
use profile::{Profile, Refusal, SUBWORDS, SYMBOLS};
use solver::Form;
use stages::Ending;
use stages::report::Report;

// What a reading hands back: the answer, and the report, which is the empty one for a refusal.
// No Result: a refusal has a report too (FORMAT 7.6), which the clauses `report` of `decode` and `extract` promise.
#[derive(Clone, Copy)]
pub struct Reading {
    pub answer: Result<(), Refusal>,
    pub report: Report,
}

// A refusal leaves every byte of the output.
pub fn refuse(q: Refusal, form: Form, out: &mut [u8]) -> Reading
    ensures answer { result.answer ≡ Err q }
    ensures same { out.new ≡ out.old }
    ensures report { Tells form untouched result.report }
{
    let report = stages::report::empty(form);
    Reading {
        answer: Err(q),
        report,
    }
}

// An array for a block, all zeros.
pub fn blank() -> [u8; SYMBOLS]
    ensures { length result ≡ 2040 }
{
    [0u8; SYMBOLS]
}

// What is answered where decoding ended: the block goes out if every subword is settled and it is a codeword.
fn conclude(
    p: Profile,
    form: Form,
    u: &[u64],
    e: Result<Ending, Ending>,
    block: &[u8],
    out: &mut [u8],
) -> Reading
    requires { Fits p block.now × (length out.old ≡ length block.now) × Further p u.now
        × IfOk e (λ e. Subwords p (bytes block.now) × Counted p.subwords e.lines) }
    ensures { (y : Series) → Reached p form y (bytes block.now) e
        → Gives form (concluded p (Decode p y)) out.old out.new result }
{
    let end = match e {
        Ok(end) => end,
        Err(end) => return refuse(Refusal::Unsettled(end.stage), form, out),
    };
    if !block::codeword::is_codeword(p, u, block) {
        return refuse(Refusal::NotCodeword, form, out);
    }
    kernel::copy(block, out);
    let lines = end.lines;
    Reading {
        answer: Ok(()),
        report: stages::report::summed(lines, p.subwords as usize, end.stage),
    }
}

// Decodes a copy of the input, made in the block that is lent, from its syndromes.
fn decode_copy(
    p: Profile,
    form: Form,
    u: &[u64],
    syndromes: [[Gf; SYNDROMES]; SUBWORDS],
    input: &[u8],
    block: &mut [u8],
    out: &mut [u8],
) -> Reading
    requires { Fits p input.now × (length block.old ≡ length input.now) × (length out.old ≡
        length input.now) × Further p u.now × (table syndromes ≡ received p (bytes input.now) (2 * p.t0)) }
    ensures { Gives form (concluded p (Decode p (bytes input.now)))
        out.old out.new result }
{
    kernel::copy(input, block);
    let e = stages::run(p, form, u, syndromes, block);
    conclude(p, form, u, e, block, out)
}

// Reads a block of an accepted profile, by its tables. A codeword goes out as it came, and no stage is entered; for any
// other block an array for a copy is made.
pub fn read(p: Profile, form: Form, t: &[u64], u: &[u64], input: &[u8], out: &mut [u8]) -> Reading
    requires { Fits p input.now × (length out.old ≡ length input.now) × Tables p t.now u.now }
    ensures { Gives form (concluded p (Decode p (bytes input.now)))
        out.old out.new result }
{
    let syndromes = block::received::syndromes(p, t, input);
    if block::codeword::is_clean(p, u, syndromes, input) {
        kernel::copy(input, out);
        return Reading {
            answer: Ok(()),
            report: stages::report::empty(form),
        };
    }
    let n = input.len();
    let mut block = blank();
    decode_copy(p, form, u, syndromes, input, &mut block[..n], out)
}
