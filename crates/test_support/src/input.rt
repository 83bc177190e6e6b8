// Standard input, piece by piece. What is missing at its end is read as 0.
ghost use Rattle.std.specs.Prelude.{◌≤◌, ◌<◌, ◌≡◌, length};
ghost use Rattle.field.specs.Field.{of};
ghost use Rattle.series.specs.Shift.{cut};
ghost use Rattle.series.specs.Array.{bytes as Bytes};
ghost use Rattle.polynomial.specs.Polynomial.{row as Row};
ghost use Rattle.stream.specs.Definition.{IsPrefixLen};

use field::Gf;
use listing::text::Text;
use polynomial::SYNDROMES;
use std::io::Stdin;
use stream::Stream;

// The most bytes that are read at once.
pub const MOST: usize = 65536;

// Fills an array, as far as bytes come, and answers how many did.
pub fn fill(stdin: Stdin, to: &mut [u8]) -> usize
    ensures { IsPrefixLen result to.new }
{
    Stream::open().fill(stdin, to)
}

// The next byte.
pub fn byte(stdin: Stdin) -> u8 {
    let mut space = [0; 1];
    fill(stdin, &mut space);
    space[0]
}

// A number of two bytes, high byte first.
pub fn number(stdin: Stdin) -> usize
    ensures { result < 65536 }
{
    let high = byte(stdin);
    usize::from(u16::from_be_bytes([high, byte(stdin)]))
}

// The next n bytes, and zeros where they end before.
pub fn bytes(stdin: Stdin, n: usize) -> Text<MOST>
    requires { n ≤ 65536 }
    ensures { length result ≡ n }
{
    let mut space = [0; MOST];
    fill(stdin, &mut space[..n]);
    Text::of(space, n)
}

// Byte i of a word, and 0 past its end.
fn at(word: &[u8], i: usize) -> u8
    ensures { of result ≡ Bytes word.now i }
{
    word.get(i).copied().unwrap_or(0)
}

// A row of the first 48 bytes of a word, then zeros.
pub fn row(word: &[u8]) -> [Gf; SYNDROMES]
    ensures { Row result ≡ cut 48 (Bytes word.now) }
{
    let mut s = [Gf::ZERO; SYNDROMES];
    for i in 0..SYNDROMES {
        s[i] = Gf(at(word, i));
    }
    s
}
