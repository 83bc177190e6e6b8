// Profiles: what they hold, the refusals with their numbers, and the sizes that follow.
#![tactic(auto)]

pub mod fetch;
pub mod layout;
pub mod questions;

ghost use Rattle.std.specs.Prelude.{◌*◌, ◌<◌, ◌^◌, ◌≡◌, MatchResult};
ghost use Rattle.profile.specs.Definition.{capability as Capability, number_of, checks as Checks};
ghost use Rattle.profile.specs.Definition.{block_size as BlockSize, capability_sum as Sum, data_size as DataSize};

// The most subwords of a block.
pub const SUBWORDS: usize = 8;

// The most nested words of a block.
pub const NESTED: usize = 3;

// The most positions of a word.
pub const POSITIONS: usize = 255;

// The most symbols of a block.
pub const SYMBOLS: usize = SUBWORDS * POSITIONS;

// m subwords, v nested words, n symbols a subword, the capabilities t0 to t3, and f: the first root is α^f.
#[derive(Clone, Copy)]
pub struct Profile {
    pub subwords: u8,
    pub nested: u8,
    pub length: u8,
    pub t0: u8,
    pub t1: u8,
    pub t2: u8,
    pub t3: u8,
    pub first_root: u8,
}

// The refusals, each after the question that said no. What is answered to a caller whose buffers were judged is a
// `Result`: every question was answered by yes, or the first no.
#[derive(Clone, Copy, Debug, PartialEq, Eq)]
pub enum Refusal {
    ProfileSize,
    Subwords,
    Nested,
    Capabilities,
    EqualCapabilities,
    Length,
    FirstRoot,
    InputSize,
    OutputSize,
    // Staged decoding ended after this stage, with subwords left unsettled.
    Unsettled(u8),
    NotCodeword,
    Subword,
}

// The number of a refusal: FORMAT 4.
impl From<Refusal> for u8 {
    ghost from_gives = { λ q n. n ≡ number_of q };

    fn from(q: Refusal) -> u8 {
        match q {
            Refusal::ProfileSize => 1,
            Refusal::Subwords => 2,
            Refusal::Nested => 3,
            Refusal::Capabilities => 4,
            Refusal::EqualCapabilities => 15,
            Refusal::Length => 5,
            Refusal::FirstRoot => 14,
            Refusal::InputSize => 6,
            Refusal::OutputSize => 7,
            Refusal::Unsettled(_) => 8,
            Refusal::NotCodeword => 9,
            Refusal::Subword => 10,
        }
    }
}

// The number of an answer: 0, or that of the refusal.
pub fn number<E: Into<u8>>(answer: Result<(), E>) -> u8
    ensures { MatchResult answer (λ _. result ≡ 0) (λ q. E.converts q result) }
{
    match answer {
        Ok(()) => 0,
        Err(q) => q.into(),
    }
}

impl Profile {
    // The capability t_r, 0 past t_3.
    pub fn capability(self, r: u8) -> u8
        ensures { result ≡ Capability self r }
    {
        match r {
            0 => self.t0,
            1 => self.t1,
            2 => self.t2,
            3 => self.t3,
            _ => 0,
        }
    }

    // How many check symbols subword i has.
    pub fn checks(self, i: u8) -> u16
        ensures { result ≡ Checks self i }
    {
        if i < self.nested {
            let t = self.capability(self.nested - i);
            return 2 * (t as u16);
        }
        2 * (self.t0 as u16)
    }

    pub fn block_size(self) -> usize
        ensures { result ≡ BlockSize self }
    {
        product(self.subwords, self.length)
    }

    // The sum of t_1 to t_v.
    fn sum(self) -> usize
        ensures value { result ≡ Sum self self.nested }
        ensures small { result < 2 ^ 16 }
    {
        let mut n: usize = 0;
        for r in 0..self.nested {
            n += self.capability(r + 1) as usize;
        }
        n
    }

    // How many data symbols a block has.
    pub fn data_size(self) -> usize
        ensures { result ≡ DataSize self }
    {
        let first = self.sum();
        let others = self.subwords.saturating_sub(self.nested);
        let rest = product(others, self.t0);
        self.block_size()
            .saturating_sub(2 * first)
            .saturating_sub(2 * rest)
    }
}

fn product(a: u8, b: u8) -> usize
    ensures value { result ≡ a * b }
    ensures small { result < 2 ^ 16 }
{
    a as usize * b as usize
}
