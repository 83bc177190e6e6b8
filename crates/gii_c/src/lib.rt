// The static library of the codec, for C callers. Each function is exported, calls the function of the crate gii that
// has its name, and states the same clauses. include/gii.h says the same to a C compiler.
#![tactic(auto)]

ghost use Rattle.std.specs.Prelude.{◌≡◌, eqb, length};
ghost use Rattle.profile.specs.Definition.{answer_of, answer_number, block_size as BlockSize, data_size as DataSize};
ghost use Rattle.profile.specs.Questions.{profile_of, writing, fetching};
ghost use Rattle.profile.specs.LayoutDefinition.{if_accepted, start as Start};
ghost use Rattle.profile.specs.FetchDefinition.{part as Part, refuses};
ghost use Rattle.encoder.specs.Definition.{written};
ghost use Rattle.decoder.specs.Definition.{reading, extraction, answer_to, block_of, data_in};
ghost use Rattle.binary.specs.Definition.{reading as BinaryReading, answer_to as binary-answer};
ghost use Rattle.binary.specs.Definition.{answer_number as binary-number, word_in};
ghost use Rattle.gii.specs.NumbersDefinition.{result_number};
ghost use Rattle.gii.specs.Definition.{Stands, reported};

#[unsafe(no_mangle)]
pub extern "C" fn gii_data_size(profile: &[u8]) -> usize
    ensures value { result ≡ if_accepted DataSize (profile_of profile.now) }
    ensures refused { eqb result 0 ≡ refuses (answer_of (profile_of profile.now)) }
{
    gii::gii_data_size(profile)
}

#[unsafe(no_mangle)]
pub extern "C" fn gii_block_size(profile: &[u8]) -> usize
    ensures value { result ≡ if_accepted BlockSize (profile_of profile.now) }
    ensures refused { eqb result 0 ≡ refuses (answer_of (profile_of profile.now)) }
{
    gii::gii_block_size(profile)
}

#[unsafe(no_mangle)]
pub extern "C" fn gii_encode(profile: &[u8], data: &[u8], out: &mut [u8]) -> u8
    ensures number { result ≡ answer_number
        (answer_of (writing profile.now (length «data».now) (length out.old))) }
    ensures block { out.new ≡ written (writing profile.now (length «data».now)
        (length out.old)) «data».now out.old }
{
    gii::gii_encode(profile, data, out)
}

#[unsafe(no_mangle)]
pub extern "C" fn gii_decode(
    profile: &[u8],
    input: &[u8],
    out: &mut [u8],
    form: u8,
    report: &mut [u8],
) -> u16
    ensures result { result ≡
        result_number (answer_to (reading profile.now input.now (length out.old))) }
    ensures block { out.new ≡ block_of (reading profile.now input.now
        (length out.old)) out.old }
    ensures report { report.new ≡ reported (reading profile.now input.now
        (length out.old)) report.old }
{
    gii::gii_decode(profile, input, out, form, report)
}

#[unsafe(no_mangle)]
pub extern "C" fn gii_read(profile: &[u8], block: &[u8], data: &mut [u8]) -> u16
    ensures result { result ≡ result_number
        (answer_to (extraction profile.now block.now (length «data».old))) }
    ensures data { «data».new ≡ data_in (extraction profile.now block.now
        (length «data».old)) «data».old }
{
    gii::gii_read(profile, block, data)
}

#[unsafe(no_mangle)]
pub extern "C" fn gii_fetch(profile: &[u8], block: &[u8], i: usize) -> u8
    ensures { result ≡ answer_number (answer_of (fetching profile.now (length block.now) i)) }
{
    gii::gii_fetch(profile, block, i)
}

#[unsafe(no_mangle)]
pub extern "C" fn gii_fetch_start(profile: &[u8], block: &[u8], i: usize) -> usize
    ensures value { result ≡
        if_accepted (λ p. Start p i) (fetching profile.now (length block.now) i) }
    ensures part { Stands (fetching profile.now (length block.now) i) i
        block.now result }
{
    gii::gii_fetch_start(profile, block, i)
}

#[unsafe(no_mangle)]
pub extern "C" fn gii_fetch_size(profile: &[u8], block: &[u8], i: usize) -> usize
    ensures value { result ≡
        length (Part (fetching profile.now (length block.now) i) i block.now) }
    ensures refused { eqb result 0 ≡
        refuses (answer_of (fetching profile.now (length block.now) i)) }
{
    gii::gii_fetch_size(profile, block, i)
}

#[unsafe(no_mangle)]
pub extern "C" fn gii_decode_binary(subword: &[u8], out: &mut [u8]) -> u8
    ensures number { result ≡
        binary-number (binary-answer (BinaryReading subword.now (length out.old))) }
    ensures word { out.new ≡
        word_in (BinaryReading subword.now (length out.old)) out.old }
{
    gii::gii_decode_binary(subword, out)
}
