// A card, section by section: each is judged as it arrives, and a line is printed for it. What one section comes to,
// and that all of them together print the list of the card, stands in specs/PrintedStep.antt and
// specs/PrintedWhole.antt. `list` does so from standard input to standard output.
#![tactic(auto)]

mod block_line;
mod heading;
pub mod list;
pub mod section;

ghost use Rattle.std.specs.Prelude.{◌<◌, ◌≡◌, true, length};
ghost use Rattle.block.specs.Parts.{Fits};
ghost use Rattle.card.specs.SectionDefinition.{good, size as SizeOf, Takes};
ghost use Rattle.card.specs.PrintedStep.{whole as Whole, cut as Cut, Judges};
ghost use Rattle.card.specs.Definition.{Made, Kept};

use crate::heading::Refusal;
use crate::section::{Judged, Section};
use listing::LINE;
use profile::Profile;

// How many entries a table has.
pub const TABLE: usize = crate::block_line::TABLE;

// Judges block i out of k, and prints its line.
fn judge_block(
    p: Profile,
    i: u16,
    k: u16,
    kept: bool,
    t: &mut [u64; TABLE],
    u: &mut [u64; TABLE],
    block: &[u8],
    line: &mut [u8; LINE],
) -> Judged
    requires { (i < k) × Fits p block.now × (kept ≡ true → Kept (Section.Block p i k) t.old u.old) }
    ensures takes { Takes (Whole (Section.Block p i k) block.now)
        line.old result line.new }
    ensures made { Made (Section.Block p i k) t.new u.new }
{
    let size = block_line::line_of(p, i, kept, t, u, block).print(line);
    Judged {
        next: Section::block_or_end(p, i + 1, k),
        size,
    }
}

// Judges a section that is whole.
fn whole(
    s: Section,
    kept: bool,
    t: &mut [u64; TABLE],
    u: &mut [u64; TABLE],
    bytes: &[u8],
    line: &mut [u8; LINE],
) -> Judged
    requires { (good s ≡ true) × (length bytes.now ≡ SizeOf s) × (kept ≡ true → Kept s t.old u.old) }
    ensures takes { Takes (Whole s bytes.now) line.old result line.new }
    ensures made { Made s t.new u.new }
{
    match s {
        Section::Size => heading::judge_size(bytes[0], line),
        Section::Bytes(_) => heading::judge_bytes(bytes, line),
        Section::Count(p) => heading::judge_count(p, bytes[0], bytes[1], line),
        Section::Block(p, i, k) => judge_block(p, i, k, kept, t, u, bytes, line),
        Section::End => heading::refuse(Refusal::Beyond, line),
        Section::Over => Judged {
            next: Section::Over,
            size: 0,
        },
    }
}

// Judges a section that is not whole: the card may end there, or it is refused.
fn cut(s: Section, line: &mut [u8; LINE]) -> Judged
    ensures { Takes (Cut s) line.old result line.new }
{
    if s.may_end() {
        return Judged {
            next: Section::Over,
            size: 0,
        };
    }
    heading::refuse(Refusal::Cut, line)
}

// Judges a section that a card leads to as `judge` does, with arrays lent for the tables that blocks are divided by.
// Whoever lends the same arrays for section after section says `kept`: the tables are made once for a card, and its
// profile is judged once.
pub fn judge_kept(
    s: Section,
    kept: bool,
    t: &mut [u64; TABLE],
    u: &mut [u64; TABLE],
    bytes: &[u8],
    line: &mut [u8; LINE],
) -> Judged
    requires { (good s ≡ true) × (kept ≡ true → Kept s t.old u.old) }
    ensures judges { Judges s bytes.now line.old result line.new }
    ensures kept { Kept result.next t.new u.new }
    ensures next { good result.next ≡ true }
{
    let n = s.size();
    if bytes.len() < n {
        return cut(s, line);
    }
    whole(s, kept, t, u, &bytes[..n], line)
}

// The section that comes next is judged: as many bytes as are wanted, or fewer, if those are the last of the card.
// Bytes beyond those that are wanted are of no interest, and a section that no card leads to is taken for the last, for
// which nothing is printed.
pub fn judge(s: Section, bytes: &[u8], line: &mut [u8; LINE]) -> Judged
    ensures { Judges s bytes.now line.old result line.new }
{
    let mut t = [0; TABLE];
    let mut u = [0; TABLE];
    judge_kept(s.known(), false, &mut t, &mut u, bytes, line)
}
