// A text in fixed memory, and texts appended to the first bytes of an array that is lent, as far as it has room. What
// the promises speak of stands in specs/Definition.antt.
ghost use Rattle.std.specs.Prelude.{◌≤◌, ◌≡◌, [], ◌∷◌, length, take};
ghost use Rattle.listing.specs.Definition.{decimal, Appended, Printed, Stored};

use std::marker::Model;

// A text of at most N bytes. What is appended to it is kept as far as it has room.
#[derive(Drop)]
pub struct Text<const N: usize> {
    bytes: [u8; N],
    len: usize,
}

// Clauses see the bytes of the text.
impl<const N: usize> Model for Text<N> {
    ghost use Rattle.std.specs.Prelude.{ℕ, ◌≤◌, List, take};

    ghost Value = { List ℕ };

    ghost view = { λ t. take t.len t.bytes };

    ghost invariant = { λ t. t.len ≤ N };
}

impl<const N: usize> Text<N> {
    pub fn new() -> Self
        ensures { result ≡ [] }
    {
        Text {
            bytes: [0; N],
            len: 0,
        }
    }

    // The text of the first n bytes of an array.
    pub fn of(bytes: [u8; N], n: usize) -> Self
        requires { n ≤ N }
        ensures { result ≡ take n bytes.entry }
    {
        Text { bytes, len: n }
    }

    pub fn as_bytes(&self) -> &[u8]
        ensures says { result.now ≡ self.now }
        ensures within { length result.now ≤ N }
    {
        &self.bytes[..self.len]
    }

    // Copies the text into the first bytes of an array that is lent, and answers how many these are.
    pub fn print(&self, to: &mut [u8; N]) -> usize
        ensures { Printed self.now to.old result to.new }
    {
        let text = self.as_bytes();
        let n = text.len();
        to[..n].copy_from_slice(text);
        n
    }

    // Appends a text.
    pub fn put(&mut self, text: &[u8])
        ensures { Appended N text.now self.old self.new }
    {
        self.len = put(&mut self.bytes, self.len, text);
    }

    // Appends the digits of a number.
    pub fn digits(&mut self, n: usize)
        ensures { Appended N (decimal n) self.old self.new }
    {
        self.len = digits(&mut self.bytes, self.len, n);
    }
}

// How many of the first `at` bytes an array has: where a text ends before anything is appended to it.
pub fn within(to: &[u8], at: usize) -> usize
    ensures value { result ≡ length (take at to.now) }
    ensures inside { result ≤ length to.now }
{
    at.min(to.len())
}

// Appends a byte to the first `at` bytes of an array, and answers where the text ends.
fn byte(to: &mut [u8], at: usize, b: u8) -> usize
    ensures { Stored at (b ∷ []) to.old result to.new }
{
    if at < to.len() {
        to[at] = b;
        return at + 1;
    }
    to.len()
}

// Appends a text, and answers where it ends.
pub fn put(to: &mut [u8], at: usize, text: &[u8]) -> usize
    ensures { Stored at text.now to.old result to.new }
{
    let mut end = within(to, at);
    for b in text {
        end = byte(to, end, *b);
    }
    end
}

// Appends the digits of a number, and answers where they end: what stands before the last one is a number too.
// Not by Display: the promise of `write!` ends where it answers an error, and `ok` promises its line in any case.
pub fn digits(to: &mut [u8], at: usize, n: usize) -> usize
    ensures { Stored at (decimal n) to.old result to.new }
{
    if n < 10 {
        return byte(to, at, 48 + n as u8);
    }
    let end = digits(to, at, n / 10);
    byte(to, end, 48 + (n % 10) as u8)
}
