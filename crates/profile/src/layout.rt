// Sizes and places, from a profile's bytes: of a block and its data, and where the data of a subword start. All are 0
// if the profile is refused.
ghost use Rattle.std.specs.Prelude.{◌≡◌};
ghost use Rattle.profile.specs.Definition.{block_size as BlockSize, data_size as DataSize};
ghost use Rattle.profile.specs.Questions.{profile_of};
ghost use Rattle.profile.specs.LayoutDefinition.{if_accepted, start as Start};

use crate::Profile;

// The symbols of a block, and how many of them are data; 0 and 0 if the profile is refused.
#[derive(Clone, Copy)]
pub struct Sizes {
    pub block: usize,
    pub payload: usize,
}

// The sizes of a block and of its data.
pub fn sizes_of(profile: &[u8]) -> Sizes
    ensures block { result.block ≡ if_accepted BlockSize (profile_of profile.now) }
    ensures payload { result.payload ≡ if_accepted DataSize (profile_of profile.now) }
{
    match crate::questions::parse(profile) {
        Ok(p) => Sizes {
            block: p.block_size(),
            payload: p.data_size(),
        },
        Err(_) => Sizes {
            block: 0,
            payload: 0,
        },
    }
}

// Where the data of subword i start in a block.
fn start(p: Profile, i: u8) -> usize
    ensures { result ≡ Start p i }
{
    i as usize * p.length as usize + p.checks(i) as usize
}

// Where the data of subword i start in a block, 0 if the profile is refused.
pub fn accepted_start(profile: &[u8], i: u8) -> usize
    ensures { result ≡ if_accepted (λ p. Start p i) (profile_of profile.now) }
{
    crate::questions::parse(profile).map_or(0, |p| start(p, i))
}
