// Reading a block, or the data of a block: the questions, then what was read with its report, or a refusal. What the
// promises speak of stands in specs/Definition.antt.
#![tactic(auto)]

pub mod prepared;

ghost use Rattle.std.specs.Prelude.{◌≡◌, length};
ghost use Rattle.series.specs.Array.{bytes};
ghost use Rattle.profile.specs.Definition.{data_size as DataSize, unless_refused};
ghost use Rattle.block.specs.Parts.{Fits};
ghost use Rattle.block.specs.Gather.{data_of};
ghost use Rattle.staged_decoding.specs.Definition.{decode as Decode};
ghost use Rattle.stages.specs.Report.{Tells};
ghost use Rattle.decoder.specs.Definition.{concluded, reading, extraction, answer_to, block_of, data_in};
ghost use Rattle.decoder.specs.Definition.{report_of, Gives, GivesData};

use crate::prepared::Reading;
use profile::questions::Caller;
use profile::{Profile, Refusal};
use solver::Form;

// Makes the tables of an accepted profile, and reads a block by them.
fn read(p: Profile, form: Form, input: &[u8], out: &mut [u8]) -> Reading
    requires { Fits p input.now × (length out.old ≡ length input.now) }
    ensures { Gives form (concluded p (Decode p (bytes input.now)))
        out.old out.new result }
{
    let mut t = divider::generator::blank();
    let mut u = divider::generator::blank();
    block::codeword::tables(p, &mut t, &mut u);
    crate::prepared::read(p, form, &t, &u, input, out)
}

// Reads a block with the solver in the named form: the block with its report, or a refusal.
pub fn decode(profile: &[u8], input: &[u8], out: &mut [u8], form: Form) -> Reading
    ensures answer { result.answer ≡
        answer_to (reading profile.now input.now (length out.old)) }
    ensures block { out.new ≡ block_of (reading profile.now input.now
        (length out.old)) out.old }
    ensures report { Tells form
        (report_of (reading profile.now input.now (length out.old))) result.report }
{
    match profile::questions::admit(Caller::Decoder, profile, input.len(), out.len(), 0) {
        Ok(p) => read(p, form, input, out),
        Err(q) => crate::prepared::refuse(q, form, out),
    }
}

// Copies the data of a block that was accepted. A refusal leaves every byte of the output.
fn hand_out(p: Profile, a: Result<(), Refusal>, block: &[u8], out: &mut [u8])
    requires { Fits p block.now × (length out.old ≡ DataSize p) }
    ensures { out.new ≡ unless_refused a (data_of p block.now) out.old }
{
    if a.is_err() {
        return;
    }
    block::gather::gather(p, block, out);
}

// Reads a block of an accepted profile into an array, and hands out its data.
fn read_data(p: Profile, form: Form, input: &[u8], out: &mut [u8]) -> Reading
    requires { Fits p input.now × (length out.old ≡ DataSize p) }
    ensures { GivesData form (concluded p (Decode p (bytes input.now)))
        out.old out.new result }
{
    let n = input.len();
    let mut block = crate::prepared::blank();
    let r = read(p, form, input, &mut block[..n]);
    let a = r.answer;
    hand_out(p, a, &block[..n], out);
    r
}

// Reads a block with the solver in the named form: its data, in the order in which they were written, with the report,
// or a refusal.
pub fn extract(profile: &[u8], input: &[u8], out: &mut [u8], form: Form) -> Reading
    ensures answer { result.answer ≡
        answer_to (extraction profile.now input.now (length out.old)) }
    ensures data { out.new ≡ data_in (extraction profile.now input.now
        (length out.old)) out.old }
    ensures report { Tells form (report_of
        (extraction profile.now input.now (length out.old))) result.report }
{
    match profile::questions::admit(Caller::Extract, profile, input.len(), out.len(), 0) {
        Ok(p) => read_data(p, form, input, out),
        Err(q) => crate::prepared::refuse(q, form, out),
    }
}
