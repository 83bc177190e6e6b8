// Ways to take products by one value, and what a loop makes of them: the value of a word, its multiple, a multiple
// added. Each loop is written once, for every way; its promise speaks of each value c whose products the way takes.
ghost use Rattle.std.specs.Prelude.{◌≡◌, length};
ghost use Rattle.field.specs.Field.{F, 𝟏, ◌⊙◌, of, val};
ghost use Rattle.series.specs.Series.{K, ◌⊞◌, ◌⊠◌};
ghost use Rattle.series.specs.Value.{value};
ghost use Rattle.series.specs.Array.{bytes};

use crate::byte::multiply;
use field::Gf;

// A way to take products by one value.
pub trait Multiplier {
    // Whether they are the products by c.
    ghost is_by: { Self → F → Type 0 };

    fn times(&self, x: u8) -> u8
        ensures { (c : F) → is_by self.now c → of result ≡ c ⊙ of x };
}

// A value by the bits of the other factor, with no table.
impl Multiplier for Gf {
    ghost is_by = { λ g c. val g ≡ c };

    fn times(&self, x: u8) -> u8 {
        multiply(self.0, x)
    }
}

// The value one, whose products are there already.
#[derive(Clone, Copy, Debug, PartialEq, Eq)]
pub struct One;

impl Multiplier for One {
    ghost is_by = { λ _ c. 𝟏 ≡ c };

    fn times(&self, x: u8) -> u8 {
        x
    }
}

// The value of a word at c by Horner's rule from the last symbol.
pub fn value<M: Multiplier>(m: &M, word: &[u8]) -> Gf
    ensures { (c : F) → M.is_by m.now c → val result ≡ value (length word.now) (bytes word.now) c }
{
    let mut v: u8 = 0;
    for x in word.iter().rev() {
        v = m.times(v) ^ *x;
    }
    Gf(v)
}

// Multiplies a word by c.
pub fn scale<M: Multiplier>(m: &M, word: &mut [u8])
    ensures { (c : F) → M.is_by m.now c → bytes word.new ≡ K c ⊠ bytes word.old }
{
    for x in word {
        *x = m.times(*x);
    }
}

// Adds c times one word to another.
pub fn add_scaled<M: Multiplier>(m: &M, from: &[u8], to: &mut [u8])
    requires { length from.now ≡ length to.old }
    ensures { (c : F) → M.is_by m.now c → bytes to.new ≡ bytes to.old ⊞ K c ⊠ bytes from.now }
{
    for (j, x) in from.iter().enumerate() {
        to[j] ^= m.times(*x);
    }
}
