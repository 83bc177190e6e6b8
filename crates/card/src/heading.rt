// The sections before the blocks: how many bytes the profile has, the profile, how many blocks there are; and the line
// of a card that is refused. What the promises speak of stands in specs/HeadingDefinition.antt.
ghost use Rattle.std.specs.Prelude.{◌+◌, ◌*◌, ◌≡◌};
ghost use Rattle.profile.specs.Questions.{profile_of};
ghost use Rattle.card.specs.declared.heading.Refusal.TheVariants.{Profile};
ghost use Rattle.card.specs.SectionDefinition.{refusal, Takes};
ghost use Rattle.card.specs.HeadingDefinition.{card_number, size_step, profile_step, count_step};

use crate::section::{Judged, Section};
use listing::LINE;
use profile::Profile;

// Why a card is refused.
#[derive(Clone, Copy, Debug, PartialEq, Eq)]
pub enum Refusal {
    // a section is not whole
    Cut,
    // a byte comes after the last section
    Beyond,
    // by its profile
    Profile(profile::Refusal),
}

impl From<profile::Refusal> for Refusal {
    ghost from_gives = { λ q r. r ≡ Profile q };

    fn from(q: profile::Refusal) -> Refusal {
        Refusal::Profile(q)
    }
}

// The number of a refusal: FORMAT 4.
impl From<Refusal> for u8 {
    ghost from_gives = { λ r n. n ≡ card_number r };

    fn from(r: Refusal) -> u8 {
        match r {
            Refusal::Cut => 11,
            Refusal::Beyond => 12,
            Refusal::Profile(q) => q.into(),
        }
    }
}

// Refuses the card by its last line.
pub fn refuse(r: Refusal, line: &mut [u8; LINE]) -> Judged
    ensures { Takes (refusal (card_number r)) line.old result line.new }
{
    let size = listing::card(r.into()).print(line);
    Judged {
        next: Section::Over,
        size,
    }
}

// Judges the byte that says how many bytes the profile has. After a 0 no section of the profile comes.
pub fn judge_size(n: u8, line: &mut [u8; LINE]) -> Judged
    ensures { Takes (size_step n) line.old result line.new }
{
    if n == 0 {
        return Judged {
            next: Section::Count(profile::questions::factory()),
            size: 0,
        };
    }
    if !profile::questions::size(n as usize) {
        return refuse(profile::Refusal::ProfileSize.into(), line);
    }
    Judged {
        next: Section::Bytes(n),
        size: 0,
    }
}

// Judges the profile.
pub fn judge_bytes(bytes: &[u8], line: &mut [u8; LINE]) -> Judged
    ensures { Takes (profile_step (profile_of bytes.now)) line.old result line.new }
{
    match profile::questions::parse(bytes) {
        Ok(p) => Judged {
            next: Section::Count(p),
            size: 0,
        },
        Err(q) => refuse(q.into(), line),
    }
}

// Judges the number of blocks, the high byte of which comes first, and prints it.
pub fn judge_count(p: Profile, high: u8, low: u8, line: &mut [u8; LINE]) -> Judged
    ensures { Takes (count_step p (256 * high + low)) line.old result line.new }
{
    let k = u16::from_be_bytes([high, low]);
    let size = listing::blocks(k).print(line);
    Judged {
        next: Section::block_or_end(p, 0, k),
        size,
    }
}
