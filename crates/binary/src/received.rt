// A received subword: whether its symbols are bits, and its syndromes of even index. The others are squares of these.
// What the promises speak of stands in specs/Definition.antt and specs/Received.antt.
ghost use Rattle.std.specs.Prelude.{ℕ, ◌*◌, ◌≤◌, ◌<◌, ◌≡◌, ◌&&◌, List, length};
ghost use Rattle.field.specs.Field.{F, ◌⊕◌, of, val, pow, is_zero};
ghost use Rattle.series.specs.Value.{value as Value};
ghost use Rattle.series.specs.Array.{bytes};
ghost use Rattle.code.specs.Word.{syndrome};
ghost use Rattle.binary.specs.Definition.{Bits, bits?};
ghost use Rattle.binary.specs.Received.{PowersOf, cube, fifth, Masks};

use field::Gf;
use kernel::product;

// The syndromes S_0, S_2 and S_4, or three other values that stand for such.
#[derive(Clone, Copy)]
pub struct Syndromes {
    pub s0: Gf,
    pub s2: Gf,
    pub s4: Gf,
}

// At p: α^(3p), for p below 255. The last entry is of no position, and 0.
const CUBES: [u8; 256] = *b"\x01\x08\x40\x3a\xcd\x26\x2d\x75\x8f\x0c\x60\x27\x25\x35\xb5\xc1\
    \x46\x0a\x50\xba\xb9\xa1\x61\x2f\x65\x0f\x78\xe7\x6b\x7f\xdf\xb6\
    \xd9\x86\x44\x1a\xd0\xce\x3e\xed\x3b\xc5\x66\x17\xb8\xa9\x21\x15\
    \xa8\x29\x55\x92\xe4\x73\xbf\x91\xfc\xb3\xf1\xdb\x96\xc4\x6e\x57\
    \x82\x64\x07\x38\xdd\xa6\x59\xf2\xc3\x56\x8a\x24\x3d\xf5\xfb\x8b\
    \x2c\x7d\xcf\x36\xad\x01\x08\x40\x3a\xcd\x26\x2d\x75\x8f\x0c\x60\
    \x27\x25\x35\xb5\xc1\x46\x0a\x50\xba\xb9\xa1\x61\x2f\x65\x0f\x78\
    \xe7\x6b\x7f\xdf\xb6\xd9\x86\x44\x1a\xd0\xce\x3e\xed\x3b\xc5\x66\
    \x17\xb8\xa9\x21\x15\xa8\x29\x55\x92\xe4\x73\xbf\x91\xfc\xb3\xf1\
    \xdb\x96\xc4\x6e\x57\x82\x64\x07\x38\xdd\xa6\x59\xf2\xc3\x56\x8a\
    \x24\x3d\xf5\xfb\x8b\x2c\x7d\xcf\x36\xad\x01\x08\x40\x3a\xcd\x26\
    \x2d\x75\x8f\x0c\x60\x27\x25\x35\xb5\xc1\x46\x0a\x50\xba\xb9\xa1\
    \x61\x2f\x65\x0f\x78\xe7\x6b\x7f\xdf\xb6\xd9\x86\x44\x1a\xd0\xce\
    \x3e\xed\x3b\xc5\x66\x17\xb8\xa9\x21\x15\xa8\x29\x55\x92\xe4\x73\
    \xbf\x91\xfc\xb3\xf1\xdb\x96\xc4\x6e\x57\x82\x64\x07\x38\xdd\xa6\
    \x59\xf2\xc3\x56\x8a\x24\x3d\xf5\xfb\x8b\x2c\x7d\xcf\x36\xad\x00";

// At p: α^(5p), for p below 255. The last entry is of no position, and 0.
const FIFTHS: [u8; 256] = *b"\x01\x20\x74\x26\xb4\x03\x60\x9c\x6a\xc1\x05\xa0\xb9\xbe\x5e\x0f\
    \xfd\xd6\xdf\xe2\x11\x1a\x67\x7c\x3b\x33\x2e\xa9\x84\x4d\x55\x72\
    \xe6\x91\xd7\xff\x96\x37\xae\x64\x1c\xa7\x59\xef\xac\x24\xf4\xeb\
    \x2c\xe9\x6c\x01\x20\x74\x26\xb4\x03\x60\x9c\x6a\xc1\x05\xa0\xb9\
    \xbe\x5e\x0f\xfd\xd6\xdf\xe2\x11\x1a\x67\x7c\x3b\x33\x2e\xa9\x84\
    \x4d\x55\x72\xe6\x91\xd7\xff\x96\x37\xae\x64\x1c\xa7\x59\xef\xac\
    \x24\xf4\xeb\x2c\xe9\x6c\x01\x20\x74\x26\xb4\x03\x60\x9c\x6a\xc1\
    \x05\xa0\xb9\xbe\x5e\x0f\xfd\xd6\xdf\xe2\x11\x1a\x67\x7c\x3b\x33\
    \x2e\xa9\x84\x4d\x55\x72\xe6\x91\xd7\xff\x96\x37\xae\x64\x1c\xa7\
    \x59\xef\xac\x24\xf4\xeb\x2c\xe9\x6c\x01\x20\x74\x26\xb4\x03\x60\
    \x9c\x6a\xc1\x05\xa0\xb9\xbe\x5e\x0f\xfd\xd6\xdf\xe2\x11\x1a\x67\
    \x7c\x3b\x33\x2e\xa9\x84\x4d\x55\x72\xe6\x91\xd7\xff\x96\x37\xae\
    \x64\x1c\xa7\x59\xef\xac\x24\xf4\xeb\x2c\xe9\x6c\x01\x20\x74\x26\
    \xb4\x03\x60\x9c\x6a\xc1\x05\xa0\xb9\xbe\x5e\x0f\xfd\xd6\xdf\xe2\
    \x11\x1a\x67\x7c\x3b\x33\x2e\xa9\x84\x4d\x55\x72\xe6\x91\xd7\xff\
    \x96\x37\xae\x64\x1c\xa7\x59\xef\xac\x24\xf4\xeb\x2c\xe9\x6c\x00";

// The powers of α³ at the positions. Each table has a function of its own, since what it promises is computed from its
// bytes; so have those of `locations`.
fn cubes() -> [u8; 256]
    ensures { PowersOf cube result }
{
    CUBES
}

// The powers of α⁵ at the positions.
fn fifths() -> [u8; 256]
    ensures { PowersOf fifth result }
{
    FIFTHS
}

// Whether every symbol is 0 or 1: the greatest is. There is no way out of the loop before its end, so that sixteen
// symbols are taken at a time.
pub fn is_binary(word: &[u8]) -> bool
    ensures { result ≡ bits? word.now }
{
    word.iter().fold(0, |most: u8, x| most.max(*x)) < 2
}

// A bit as a mask: 0 or 255.
fn mask(bit: u8) -> u8
    requires { bit < 2 }
    ensures { result ≡ bit * 255 }
{
    bit * 255
}

// The bits of a word as masks, then zeros.
fn masks(word: &[u8]) -> [u8; 256]
    requires { (length word.now ≤ 255) × Bits (length word.now) (bytes word.now) }
    ensures { Masks word.now result }
{
    let mut out = [0u8; 256];
    for (p, bit) in word.iter().enumerate() {
        out[p] = mask(*bit);
    }
    out
}

// What the symbols from one position to another, that one not included, have in the value of the word that the masks
// are of, from a table of powers: a sum, with no product, sixteen at a time.
fn part(masks: &[u8; 256], table: &[u8; 256], from: usize, to: usize) -> u8
    requires { (from ≤ to) × (to ≤ 256) }
    ensures { (x : F) (w : List ℕ) → PowersOf x table.now → Masks w masks.now
        → of result ≡ Value to (bytes w) x ⊕ Value from (bytes w) x }
{
    let mut sum = 0u8;
    for p in from..to {
        sum ^= masks[p] & table[p];
    }
    sum
}

// The value at x of that word, from a table of the powers of x. It is added in two parts: in one, the compiler would
// compare the last term with the sum before it, to know whether both are zero together, and then take one at a time.
fn value(masks: &[u8; 256], table: &[u8; 256]) -> Gf
    ensures { (x : F) (w : List ℕ) → PowersOf x table.now → Masks w masks.now
        → val result ≡ Value (length w) (bytes w) x }
{
    let low = part(masks, table, 0, 128);
    let high = part(masks, table, 128, 256);
    Gf(low ^ high)
}

// The syndromes of even index below six.
pub fn even_syndromes(word: &[u8]) -> Syndromes
    requires { (length word.now ≤ 255) × Bits (length word.now) (bytes word.now) }
    ensures { (val result.s0 ≡ syndrome 1 (length word.now) (bytes word.now) 0)
        × (val result.s2 ≡ syndrome 1 (length word.now) (bytes word.now) 2)
        × (val result.s4 ≡ syndrome 1 (length word.now) (bytes word.now) 4) }
{
    let bits = masks(word);
    Syndromes {
        s0: value(&bits, &field::powers()),
        s2: value(&bits, &cubes()),
        s4: value(&bits, &fifths()),
    }
}

impl Syndromes {
    // The syndromes of a change at the location x: its odd powers. None if x is zero.
    pub fn single(x: Gf) -> Syndromes
        ensures { (val result.s0 ≡ val x) × (val result.s2 ≡ pow (val x) 3) × (val result.s4 ≡ pow (val x) 5) }
    {
        if x.is_zero() {
            return Syndromes {
                s0: x,
                s2: x,
                s4: x,
            };
        }
        let square = product(x, x);
        let third = product(x, square);
        Syndromes {
            s0: x,
            s2: third,
            s4: product(square, third),
        }
    }

    pub fn sum(self, other: Syndromes) -> Syndromes
        ensures { (val result.s0 ≡ val self.s0 ⊕ val other.s0)
            × (val result.s2 ≡ val self.s2 ⊕ val other.s2)
            × (val result.s4 ≡ val self.s4 ⊕ val other.s4) }
    {
        Syndromes {
            s0: self.s0.sum(other.s0),
            s2: self.s2.sum(other.s2),
            s4: self.s4.sum(other.s4),
        }
    }

    // Whether all three are zero.
    pub fn are_zero(self) -> bool
        ensures { result ≡ is_zero (val self.s0) && (is_zero (val self.s2) && is_zero (val self.s4)) }
    {
        self.s0.is_zero() && self.s2.is_zero() && self.s4.is_zero()
    }
}
