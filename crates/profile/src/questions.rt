// The questions that a profile and the buffers lent with it are put: FORMAT 4. `judge` asks them, one line a question,
// in their order. What they ask, of whom, and what a no gives stands in specs/Questions.antt.
ghost use Rattle.std.specs.Prelude.{◌≡◌, true, false, cond, leb, eqb, get_or, MatchResult};
ghost use Rattle.profile.specs.Definition.{last as Last};
ghost use Rattle.profile.specs.Questions.{read as Read, encodes as Encodes, decodes as Decodes};
ghost use Rattle.profile.specs.Questions.{fetches as Fetches, extracts as Extracts, good_size, good_subwords};
ghost use Rattle.profile.specs.Questions.{good_nested, good_capabilities, good_rising, good_length, good_root};
ghost use Rattle.profile.specs.Questions.{asked, admitted, factory as Factory};

use crate::{Profile, Refusal};

// Who asks the questions.
#[derive(Clone, Copy, Debug, PartialEq, Eq)]
pub enum Caller {
    Encoder,
    Decoder,
    Fetch,
    Extract,
    Card,
}

// What a caller lends, as far as a question looks at it: the bytes of the profile, of the input and of the output, and
// the number of a subword.
#[derive(Clone, Copy)]
pub struct Lent {
    pub profile: usize,
    pub input: usize,
    pub output: usize,
    pub subword: usize,
}

impl Caller {
    // Whether the caller writes blocks.
    fn encodes(self) -> bool
        ensures { result ≡ Encodes self }
    {
        self == Caller::Encoder
    }

    // Whether the caller reads blocks.
    fn decodes(self) -> bool
        ensures { result ≡ Decodes self }
    {
        self == Caller::Decoder
    }

    // Whether the caller fetches the data of a subword.
    fn fetches(self) -> bool
        ensures { result ≡ Fetches self }
    {
        self == Caller::Fetch
    }

    // Whether the caller reads the data of a block.
    fn extracts(self) -> bool
        ensures { result ≡ Extracts self }
    {
        self == Caller::Extract
    }
}

// Whether a profile may have so many bytes: none, seven or eight.
pub fn size(bytes: usize) -> bool
    ensures { result ≡ good_size bytes }
{
    matches!(bytes, 0 | 7 | 8)
}

// Whether m is from 1 to 8.
fn subwords(p: Profile) -> bool
    ensures { result ≡ good_subwords p }
{
    (1..=8).contains(&p.subwords)
}

// Whether v is at most 3, and below m.
fn nested(p: Profile) -> bool
    ensures { result ≡ good_nested p }
{
    p.nested <= 3 && p.nested < p.subwords
}

// Whether t_r is as it must be: above t_(r-1) or no less, which `rises` says; or 0, if r is above v.
fn step(r: u8, v: u8, rises: bool, t: u8) -> bool
    ensures { result ≡ cond (leb r v) rises (eqb t 0) }
{
    if r <= v { rises } else { t == 0 }
}

// The capability t_v, the last that counts.
fn last(p: Profile) -> u8
    ensures { result ≡ Last p }
{
    p.capability(p.nested)
}

// Whether t0 is at least 1, t0 < t1 ≤ .. ≤ tv ≤ 24, and those after tv are 0.
fn capabilities(p: Profile) -> bool
    ensures { result ≡ good_capabilities p }
{
    let v = p.nested;
    1 <= p.t0
        && step(1, v, p.t0 < p.t1, p.t1)
        && step(2, v, p.t1 <= p.t2, p.t2)
        && step(3, v, p.t2 <= p.t3, p.t3)
        && last(p) <= 24
}

// Whether t1 < .. < tv.
fn rising(p: Profile) -> bool
    ensures { result ≡ good_rising p }
{
    let v = p.nested;
    (v < 2 || p.t1 < p.t2) && (v < 3 || p.t2 < p.t3)
}

// Whether n is above 2 × tv.
fn length(p: Profile) -> bool
    ensures { result ≡ good_length p }
{
    2 * (last(p) as u16) < p.length as u16
}

// Whether f is at most 254: α^255 is α^0, so that 255 would say the same as 0.
fn root(p: Profile) -> bool
    ensures { result ≡ good_root p }
{
    p.first_root <= 254
}

// Takes one answer: a question that is asked, and not answered by yes, refuses the profile.
fn ask(asks: bool, good: bool, q: Refusal) -> Result<(), Refusal>
    ensures { MatchResult result (λ _. cond asks good true ≡ true)
        (λ r. (cond asks good true ≡ false) × (r ≡ q)) }
{
    if asks && !good { Err(q) } else { Ok(()) }
}

// Asks all questions in their order, one a line: whether the caller asks it, whether the answer is yes, and the refusal
// that a no gives.
#[tactic(auto, using(crate::specs::QuestionsLaws::asked_in_order))]
pub fn judge(caller: Caller, l: Lent, p: Profile) -> Result<Profile, Refusal>
    ensures { result ≡ asked caller l p }
{
    let e = caller.encodes();
    let d = caller.decodes();
    let f = caller.fetches();
    let x = caller.extracts();
    let symbols = p.block_size();
    let payload = p.data_size();
    ask(true, size(l.profile), Refusal::ProfileSize)?;
    ask(true, subwords(p), Refusal::Subwords)?;
    ask(true, nested(p), Refusal::Nested)?;
    ask(true, capabilities(p), Refusal::Capabilities)?;
    ask(e, rising(p), Refusal::EqualCapabilities)?;
    ask(true, length(p), Refusal::Length)?;
    ask(true, root(p), Refusal::FirstRoot)?;
    ask(e, l.input == payload, Refusal::InputSize)?;
    ask(d | f | x, l.input == symbols, Refusal::InputSize)?;
    ask(e | d, l.output == symbols, Refusal::OutputSize)?;
    ask(x, l.output == payload, Refusal::OutputSize)?;
    ask(f, l.subword < p.subwords as usize, Refusal::Subword)?;
    Ok(p)
}

// Gives byte i, or `missing` where there is none.
fn byte(bytes: &[u8], i: usize, missing: u8) -> u8
    ensures { result ≡ get_or bytes.now i missing }
{
    bytes.get(i).copied().unwrap_or(missing)
}

// The profile that no bytes stand for: that of the cards which leave it out.
pub fn factory() -> Profile
    ensures { result ≡ Factory }
{
    Profile {
        subwords: 8,
        nested: 3,
        length: 255,
        t0: 14,
        t1: 16,
        t2: 18,
        t3: 24,
        first_root: 1,
    }
}

// Reads the bytes of a profile. Without an eighth byte the first root is α.
fn read(bytes: &[u8]) -> Profile
    ensures { result ≡ Read bytes.now }
{
    if bytes.is_empty() {
        return factory();
    }
    Profile {
        subwords: byte(bytes, 0, 0),
        nested: byte(bytes, 1, 0),
        length: byte(bytes, 2, 0),
        t0: byte(bytes, 3, 0),
        t1: byte(bytes, 4, 0),
        t2: byte(bytes, 5, 0),
        t3: byte(bytes, 6, 0),
        first_root: byte(bytes, 7, 1),
    }
}

// The profile of these bytes for a caller who lends an input and an output of so many bytes and names a subword, or the
// first question that says no.
pub fn admit(
    caller: Caller,
    profile: &[u8],
    input: usize,
    output: usize,
    subword: usize,
) -> Result<Profile, Refusal>
    ensures { result ≡ admitted caller profile.now input output subword }
{
    let l = Lent {
        profile: profile.len(),
        input,
        output,
        subword,
    };
    judge(caller, l, read(profile))
}

// The profile of these bytes by itself, which is what a card asks, or the first question that says no.
pub fn parse(profile: &[u8]) -> Result<Profile, Refusal>
    ensures { result ≡ admitted Caller.Card profile.now 0 0 0 }
{
    admit(Caller::Card, profile, 0, 0, 0)
}
