// The list of a card: its sections are read from standard input one after the other, and each is judged and its line is
// written to standard output before the next is read. A card may be of any size, and is never held whole; its profile
// is judged, and the tables that its blocks are divided by are made, once. What the promises speak of stands in
// specs/ListDefinition.antt.
ghost use Rattle.std.specs.Prelude.{◌<◌, ◌≡◌, false, length};
ghost use Rattle.card.specs.SectionDefinition.{size as SizeOf, over, left};
ghost use Rattle.card.specs.Definition.{Kept};
ghost use Rattle.card.specs.ListDefinition.{Lists, Reached};

use crate::TABLE;
use crate::section::Section;
use listing::LINE;
use std::io::{Stdin, Stdout};
use stream::Stream;

// Reads the section that comes next, judges it and writes its line, and hands back what comes then. Where a read or a
// write fails, all is over.
fn step(
    s: Section,
    x: &mut Stream,
    input: Stdin,
    output: Stdout,
    t: &mut [u64; TABLE],
    u: &mut [u64; TABLE],
    bytes: &mut [u8],
) -> Section
    requires { Reached s x.old × (over s ≡ false) × (length bytes.old ≡ SizeOf s) × Kept s t.old u.old }
    ensures reached { Reached result x.new }
    ensures falls { left result < left s }
    ensures kept { Kept result t.new u.new }
{
    let n = x.fill(input, bytes);
    if x.is_unread() {
        return Section::Over;
    }
    let mut line = [0; LINE];
    let r = crate::judge_kept(s, true, t, u, &bytes[..n], &mut line);
    x.write_all(output, &line[..r.size]);
    if x.is_unwritten() {
        return Section::Over;
    }
    r.next
}

// Reads a card to its end and writes its list, and hands back the streams: they tell whether a read or a write failed.
pub fn print(input: Stdin, output: Stdout) -> Stream
    ensures { Lists result }
{
    let mut bytes = crate::block_line::blank();
    let mut t = [0; TABLE];
    let mut u = [0; TABLE];
    let mut x = Stream::open();
    let mut s = Section::Size;
    while !s.is_over() {
        let n = s.size();
        s = step(s, &mut x, input, output, &mut t, &mut u, &mut bytes[..n]);
    }
    x
}
