// Words that are lent, symbol by symbol.
ghost use Rattle.std.specs.Prelude.{◌≡◌, length};
ghost use Rattle.field.specs.Field.{val};
ghost use Rattle.series.specs.Series.{K, ◌⊞◌, ◌⊠◌};
ghost use Rattle.series.specs.Array.{bytes};

use crate::multiplier::{One, add_scaled};
use field::Gf;

// Adds one word to another.
pub fn add(from: &[u8], to: &mut [u8])
    requires { length from.now ≡ length to.old }
    ensures { bytes to.new ≡ bytes to.old ⊞ bytes from.now }
{
    add_scaled(&One, from, to);
}

// Adds c times one word to another, for every c: by its doubles, which are found once, before the symbols are walked,
// or, where c is one, by a plain sum.
pub fn add_multiple(c: Gf, from: &[u8], to: &mut [u8])
    requires { length from.now ≡ length to.old }
    ensures { bytes to.new ≡ bytes to.old ⊞ K (val c) ⊠ bytes from.now }
{
    if c == Gf::ONE {
        add(from, to);
        return;
    }
    add_scaled(&c, from, to);
}

// Copies one word to another. A loop: `copy_from_slice` is a call of memmove where it is not seen that the words lie
// apart, and the archive for C asks for memcpy and memset alone.
pub fn copy(from: &[u8], to: &mut [u8])
    requires { length to.old ≡ length from.now }
    ensures { to.new ≡ from.now }
{
    for i in 0..from.len() {
        to[i] = from[i];
    }
}
