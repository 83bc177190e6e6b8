// For the benchmark: products by one value in three ways. By a row of 256 products, by half-byte tables, and by the
// bits of the other factor, with no table. Each call makes the tables that it needs, and promises the same. The crate
// bench_products_c exports them to C.
#![tactic(auto)]

ghost use Rattle.std.specs.Prelude.{◌≡◌, length};
ghost use Rattle.field.specs.Field.{F, of, val};
ghost use Rattle.series.specs.Value.{value};
ghost use Rattle.series.specs.Array.{bytes};
ghost use Rattle.bench_products.specs.Definition.{Adds};

use field::Gf;
use kernel::Multiplier;
use kernel::halves::Halves;

// The three ways, with the numbers that C gives them.
#[derive(Clone, Copy, Debug, PartialEq, Eq)]
enum Way {
    Row,
    Halves,
    Bits,
}

impl From<u8> for Way {
    // A number that is no other way's is the third's.
    fn from(way: u8) -> Way {
        match way {
            0 => Way::Row,
            1 => Way::Halves,
            _ => Way::Bits,
        }
    }
}

// Adds c times one word to another. Words of different lengths are left as they are.
fn add<M: Multiplier>(m: &M, from: &[u8], to: &mut [u8])
    ensures { (c : F) → M.is_by m.now c → Adds c from.now to.old to.new }
{
    if from.len() == to.len() {
        kernel::add_scaled(m, from, to);
    }
}

// The same by a row, which is lent from where it was made: to hand it on would be a call of memcpy, and the library for
// C asks for no function.
fn by_row(c: Gf, from: &[u8], to: &mut [u8])
    ensures { Adds (val c) from.now to.old to.new }
{
    let row = kernel::product_row(c);
    add(&row, from, to);
}

// The same by half bytes, which are lent so too.
fn by_halves(c: Gf, from: &[u8], to: &mut [u8])
    ensures { Adds (val c) from.now to.old to.new }
{
    let h = Halves::split(c);
    add(&h, from, to);
}

// The same by bits, as `kernel::add_multiple` has it: c times one word, or where c is one the word itself.
fn by_bits(c: Gf, from: &[u8], to: &mut [u8])
    ensures { Adds (val c) from.now to.old to.new }
{
    if from.len() != to.len() {
        return;
    }
    kernel::add_multiple(c, from, to);
}

// The same: by a row if `way` is 0, by half bytes if it is 1, else by bits.
#[unsafe(no_mangle)]
pub extern "C" fn multiple(way: u8, c: u8, from: &[u8], to: &mut [u8])
    ensures { Adds (of c) from.now to.old to.new }
{
    let c = Gf(c);
    match Way::from(way) {
        Way::Row => by_row(c, from, to),
        Way::Halves => by_halves(c, from, to),
        Way::Bits => by_bits(c, from, to),
    }
}

// The value of a word at w by a row.
fn value_by_row(w: Gf, word: &[u8]) -> Gf
    ensures { val result ≡ value (length word.now) (bytes word.now) (val w) }
{
    let row = kernel::product_row(w);
    kernel::value(&row, word)
}

// The same by half bytes.
fn value_by_halves(w: Gf, word: &[u8]) -> Gf
    ensures { val result ≡ value (length word.now) (bytes word.now) (val w) }
{
    let h = Halves::split(w);
    kernel::value(&h, word)
}

// The value of a word at w, by the same ways.
#[unsafe(no_mangle)]
pub extern "C" fn value(way: u8, w: u8, word: &[u8]) -> u8
    ensures { of result ≡ value (length word.now) (bytes word.now) (of w) }
{
    let w = Gf(w);
    let v = match Way::from(way) {
        Way::Row => value_by_row(w, word),
        Way::Halves => value_by_halves(w, word),
        Way::Bits => kernel::value(&w, word),
    };
    v.0
}
