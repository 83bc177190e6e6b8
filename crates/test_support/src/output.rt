// What an output holds before anything is written to it, and the one function that writes a text to standard output.
ghost use Rattle.std.specs.Prelude.{◌≡◌, length};

use listing::text::Text;
use std::io::Stdout;
use stream::Stream;

// What every byte of an output holds before anything is written to it.
pub const BEFORE: u8 = 170;

// Writes a text to standard output, and answers how many bytes it has.
pub fn write<const N: usize>(stdout: Stdout, text: &Text<N>) -> usize
    ensures { result ≡ length text.now }
{
    let bytes = text.as_bytes();
    Stream::open().write_all(stdout, bytes);
    bytes.len()
}
