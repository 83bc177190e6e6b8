// The lines of the printed list. What the promises speak of stands in specs/Definition.antt.
#![tactic(auto)]

pub mod text;

ghost use Rattle.std.specs.Prelude.{◌≡◌, ◌++◌};
ghost use Rattle.listing.specs.Definition.{decimal, blocks_line, ok_line, refused_line, card_line, Appended};

use crate::text::Text;

// Room for a line, the longest of which has 25 bytes.
pub const LINE: usize = 32;

pub type Line = Text<LINE>;

// Appends a number, and a text behind it.
fn field(line: &mut Line, n: u16, text: &[u8])
    ensures { Appended LINE (decimal n ++ text.now) line.old line.new }
{
    line.digits(n as usize);
    line.put(text);
}

pub fn blocks(n: u16) -> Line
    ensures { result ≡ blocks_line n }
{
    let mut line = Line::new();
    line.put(b"blocks ");
    field(&mut line, n, b"\n");
    line
}

pub fn ok(index: u16, last: u8, changed: u16, bits: u16) -> Line
    ensures { result ≡ ok_line index last changed bits }
{
    let mut line = Line::new();
    field(&mut line, index, b" ok ");
    field(&mut line, last as u16, b" ");
    field(&mut line, changed, b" ");
    field(&mut line, bits, b"\n");
    line
}

pub fn refused(index: u16, q: u8) -> Line
    ensures { result ≡ refused_line index q }
{
    let mut line = Line::new();
    field(&mut line, index, b" refused ");
    field(&mut line, q as u16, b"\n");
    line
}

pub fn card(q: u8) -> Line
    ensures { result ≡ card_line q }
{
    let mut line = Line::new();
    line.put(b"card refused ");
    field(&mut line, q as u16, b"\n");
    line
}
