// Fetching: the data of one subword, as a part of the caller's own block.
ghost use Rattle.std.specs.Prelude.{◌≡◌, false, length};
ghost use Rattle.profile.specs.Definition.{answer_of};
ghost use Rattle.profile.specs.Questions.{fetching};
ghost use Rattle.profile.specs.FetchDefinition.{part as Part, empty, refuses};
ghost use Rattle.profile.specs.FetchLaws.{Within};

use crate::questions::Caller;
use crate::{Profile, Refusal};

// The answer to a fetch of subword i.
pub fn answer(profile: &[u8], block: &[u8], i: usize) -> Result<(), Refusal>
    ensures { result ≡ answer_of (fetching profile.now (length block.now) i) }
{
    crate::questions::admit(Caller::Fetch, profile, block.len(), 0, i)?;
    Ok(())
}

// The data positions of subword i, as a part of the block.
pub fn positions<'a>(p: Profile, block: &'a [u8], i: usize) -> &'a [u8]
    requires { Within p (length block.now) i }
    ensures result_value { result.now ≡ Part (Ok p) i block.now }
    ensures some { empty result.now ≡ false }
{
    let n = p.length as usize;
    let start = i * n;
    let data = start + p.checks(i as u8) as usize;
    let end = start + n;
    &block[data..end]
}

// The data of subword i as a part of the block, an empty one if the fetch is refused.
pub fn part<'a>(profile: &[u8], block: &'a [u8], i: usize) -> &'a [u8]
    ensures result_value { result.now ≡
        Part (fetching profile.now (length block.now) i) i block.now }
    ensures empty { empty result.now ≡
        refuses (answer_of (fetching profile.now (length block.now) i)) }
{
    match crate::questions::admit(Caller::Fetch, profile, block.len(), 0, i) {
        Ok(p) => positions(p, block, i),
        Err(_) => &block[..0],
    }
}
