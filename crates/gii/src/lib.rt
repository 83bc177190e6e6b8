// The codec for C and for Rust: plain numbers and lent bytes, each slice a pointer and a length. include/gii.h says the
// same to a C compiler, and the crate gii_c exports these functions. What the promises speak of stands in
// specs/Definition.antt and specs/NumbersDefinition.antt, and in profile's specs/LayoutDefinition.antt.
#![tactic(auto)]

mod numbers;

ghost use Rattle.std.specs.Prelude.{◌≡◌, eqb, length};
ghost use Rattle.profile.specs.Definition.{answer_of, answer_number, block_size as BlockSize, data_size as DataSize};
ghost use Rattle.profile.specs.Questions.{profile_of, writing, fetching, extracting};
ghost use Rattle.profile.specs.LayoutDefinition.{if_accepted, start as Start};
ghost use Rattle.profile.specs.FetchDefinition.{part as Part, refuses};
ghost use Rattle.encoder.specs.Definition.{written};
ghost use Rattle.decoder.specs.Definition.{reading, extraction, answer_to, block_of, data_in};
ghost use Rattle.binary.specs.Definition.{reading as BinaryReading, answer_to as binary-answer};
ghost use Rattle.binary.specs.Definition.{answer_number as binary-number, word_in};
ghost use Rattle.gii.specs.NumbersDefinition.{result_number};
ghost use Rattle.gii.specs.Definition.{Stands, form_of, reported};

use profile::questions::Caller;
use profile::{Profile, Refusal};
use solver::Form;

// ---- sizes

// The data symbols of a block, 0 exactly if the profile is refused.
#[unsafe(no_mangle)]
pub extern "C" fn gii_data_size(profile: &[u8]) -> usize
    ensures value { result ≡ if_accepted DataSize (profile_of profile.now) }
    ensures refused { eqb result 0 ≡ refuses (answer_of (profile_of profile.now)) }
{
    profile::layout::sizes_of(profile).payload
}

// The symbols of a block, 0 exactly if the profile is refused.
#[unsafe(no_mangle)]
pub extern "C" fn gii_block_size(profile: &[u8]) -> usize
    ensures value { result ≡ if_accepted BlockSize (profile_of profile.now) }
    ensures refused { eqb result 0 ≡ refuses (answer_of (profile_of profile.now)) }
{
    profile::layout::sizes_of(profile).block
}

// ---- writing

// Writes the block with the given data: 0, or the number of the first question that says no.
#[unsafe(no_mangle)]
pub extern "C" fn gii_encode(profile: &[u8], data: &[u8], out: &mut [u8]) -> u8
    ensures number { result ≡ answer_number
        (answer_of (writing profile.now (length «data».now) (length out.old))) }
    ensures block { out.new ≡ written (writing profile.now (length «data».now)
        (length out.old)) «data».now out.old }
{
    profile::number(encoder::encode(profile, data, out))
}

// ---- reading

// The form of that number: 1 is lookahead, 2 scaled, any other number plain.
fn form_of(f: u8) -> Form
    ensures { result ≡ form_of f }
{
    match f {
        1 => Form::Lookahead,
        2 => Form::Scaled,
        _ => Form::Plain,
    }
}

// Reads a block with the solver in the form of that number: the number of the answer, and 256 times the stage of an 8.
// The promises do not depend on the form, so that none of them binds it.
#[unsafe(no_mangle)]
pub extern "C" fn gii_decode(
    profile: &[u8],
    input: &[u8],
    out: &mut [u8],
    form: u8,
    report: &mut [u8],
) -> u16
    ensures result { result ≡
        result_number (answer_to (reading profile.now input.now (length out.old))) }
    ensures block { out.new ≡ block_of (reading profile.now input.now
        (length out.old)) out.old }
    ensures report { report.new ≡ reported (reading profile.now input.now
        (length out.old)) report.old }
{
    let r = decoder::decode(profile, input, out, form_of(form));
    let list = numbers::list_of(r.report);
    numbers::fill_if(r.answer, &list, report);
    numbers::result_of(r.answer)
}

// A refusal leaves every byte of the output.
fn refuse(q: Refusal, out: &mut [u8]) -> u16
    ensures result { result ≡ result_number (Err q) }
    ensures same { out.new ≡ out.old }
{
    numbers::result_of(Err(q))
}

// Reads the data of a block by gii_decode, and not by `decoder::extract`: with one caller of the decoder the compiler
// sees which parts of a report nobody wants.
fn read_data(p: Profile, profile: &[u8], block: &[u8], out: &mut [u8]) -> u16
    requires { extracting profile.now (length block.now) (length out.old) ≡ Ok p }
    ensures result { result ≡ result_number
        (answer_to (extraction profile.now block.now (length out.old))) }
    ensures data { out.new ≡ data_in (extraction profile.now block.now
        (length out.old)) out.old }
{
    let n = block.len();
    let mut whole = decoder::prepared::blank();
    let mut report = [0u8; 1];
    let r = gii_decode(profile, block, &mut whole[..n], 0, &mut report);
    if r != 0 {
        return r;
    }
    block::gather::gather(p, &whole[..n], out);
    r
}

// Reads the data of a block, in the order in which they were written; what it returns is as with gii_decode.
#[unsafe(no_mangle)]
pub extern "C" fn gii_read(profile: &[u8], block: &[u8], data: &mut [u8]) -> u16
    ensures result { result ≡ result_number
        (answer_to (extraction profile.now block.now (length «data».old))) }
    ensures data { «data».new ≡ data_in (extraction profile.now block.now
        (length «data».old)) «data».old }
{
    match profile::questions::admit(Caller::Extract, profile, block.len(), data.len(), 0) {
        Ok(p) => read_data(p, profile, block, data),
        Err(q) => refuse(q, data),
    }
}

// ---- fetching

// The number of a fetch; the part it names starts at gii_fetch_start and has gii_fetch_size symbols.
#[unsafe(no_mangle)]
pub extern "C" fn gii_fetch(profile: &[u8], block: &[u8], i: usize) -> u8
    ensures { result ≡ answer_number (answer_of (fetching profile.now (length block.now) i)) }
{
    profile::number(profile::fetch::answer(profile, block, i))
}

// Where the part starts in the block, 0 if the fetch is refused.
#[unsafe(no_mangle)]
pub extern "C" fn gii_fetch_start(profile: &[u8], block: &[u8], i: usize) -> usize
    ensures value { result ≡
        if_accepted (λ p. Start p i) (fetching profile.now (length block.now) i) }
    ensures part { Stands (fetching profile.now (length block.now) i) i
        block.now result }
{
    match profile::fetch::answer(profile, block, i) {
        Ok(()) => profile::layout::accepted_start(profile, i as u8),
        Err(_) => 0,
    }
}

// The symbols of the part, 0 exactly if the fetch is refused.
#[unsafe(no_mangle)]
pub extern "C" fn gii_fetch_size(profile: &[u8], block: &[u8], i: usize) -> usize
    ensures value { result ≡
        length (Part (fetching profile.now (length block.now) i) i block.now) }
    ensures refused { eqb result 0 ≡
        refuses (answer_of (fetching profile.now (length block.now) i)) }
{
    profile::fetch::part(profile, block, i).len()
}

// ---- binary subwords

// Decodes a binary subword: 0, or the number of the first question that says no.
#[unsafe(no_mangle)]
pub extern "C" fn gii_decode_binary(subword: &[u8], out: &mut [u8]) -> u8
    ensures number { result ≡
        binary-number (binary-answer (BinaryReading subword.now (length out.old))) }
    ensures word { out.new ≡
        word_in (BinaryReading subword.now (length out.old)) out.old }
{
    profile::number(binary::decode_binary(subword, out))
}
