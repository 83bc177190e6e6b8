// The sections of a card: which of them a card leads to, how many bytes each has, and what judging one hands back.
// What the promises speak of stands in specs/SectionDefinition.antt.
ghost use Rattle.std.specs.Prelude.{◌≤◌, ◌≡◌, true, ◌&&◌, ltb};
ghost use Rattle.profile.specs.Questions.{good_size};
ghost use Rattle.card.specs.SectionDefinition.{accepts, good as Good, known as Known, size as SizeOf};
ghost use Rattle.card.specs.SectionDefinition.{wanted as Wanted, kinds as Kinds, ends, over, from};

use profile::Profile;
use profile::questions::{Caller, Lent};

// The most bytes of a section.
pub const SECTION: usize = profile::SYMBOLS;

// What comes next on a card.
#[derive(Clone, Copy)]
pub enum Section {
    // how many bytes the profile has
    Size,
    // the profile, of so many bytes
    Bytes(u8),
    // how many blocks there are
    Count(Profile),
    // the block of the first number, out of as many as the second says
    Block(Profile, u16, u16),
    // nothing
    End,
    // what is of no interest: all is printed
    Over,
}

// What comes next after a section, and how many bytes of the line are printed.
// The line is lent and its size stands here, since `judge` promises it so, with the bytes behind it as they were.
#[derive(Clone, Copy)]
pub struct Judged {
    pub next: Section,
    pub size: usize,
}

// Whether the profile passes its questions.
fn accepted(p: Profile) -> bool
    ensures { result ≡ accepts p }
{
    let l = Lent {
        profile: 7,
        input: 0,
        output: 0,
        subword: 0,
    };
    profile::questions::judge(Caller::Card, l, p).is_ok()
}

impl Section {
    // Whether a card can lead to the section. A profile of no bytes is left out, and has none.
    fn good(self) -> bool
        ensures { result ≡ Good self }
    {
        match self {
            Section::Size | Section::End | Section::Over => true,
            Section::Bytes(n) => (0 < n) & profile::questions::size(n as usize),
            Section::Count(p) => accepted(p),
            Section::Block(p, i, of) => i < of && accepted(p),
        }
    }

    // A section that no card leads to is taken for the last: all is printed.
    pub fn known(self) -> Section
        ensures { result ≡ Known self }
    {
        if self.good() { self } else { Section::Over }
    }

    // How many bytes the section has.
    pub fn size(self) -> usize
        ensures value { result ≡ SizeOf self }
        ensures most { Good self ≡ true → result ≤ 2040 }
    {
        match self {
            Section::Size | Section::End => 1,
            Section::Bytes(n) => n as usize,
            Section::Count(_) => 2,
            Section::Block(p, _, _) => p.block_size(),
            Section::Over => 0,
        }
    }

    // How many bytes come next: 0 where no card leads to the section.
    pub fn wanted(self) -> usize
        ensures value { result ≡ Wanted self }
        ensures most { result ≤ 2040 }
    {
        self.known().size()
    }

    // Whether all is printed.
    pub fn is_over(self) -> bool
        ensures { result ≡ over self }
    {
        matches!(self, Section::Over)
    }

    // Whether a card may end here.
    pub fn may_end(self) -> bool
        ensures { result ≡ ends self }
    {
        matches!(self, Section::End | Section::Over)
    }

    // The section of block i out of k, or the end if there is no such block.
    pub fn block_or_end(p: Profile, i: u16, k: u16) -> Section
        ensures { result ≡ from p i k }
    {
        if i < k {
            Section::Block(p, i, k)
        } else {
            Section::End
        }
    }
}
