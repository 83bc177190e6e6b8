// Products by one value from two tables of sixteen entries, one for the low half byte of the other factor and one for
// the high: 32 bytes a value, where `row` has 256 and the field's two tables 512. For machines with little memory for
// tables; the codec itself takes the other ways, which are faster here (README).
ghost use Rattle.std.specs.Prelude.{◌≡◌};
ghost use Rattle.field.specs.Field.{F, ◌⊙◌, of, val};
ghost use Rattle.kernel.specs.Halves.{Halved, looked_up};

use crate::multiplier::Multiplier;
use crate::row::fill;
use field::Gf;

// How many values a half byte has.
pub const HALF: usize = 16;

// The tables of a value c: entry x of `low` is x times c, entry x of `high` is 16 x times c.
#[derive(Clone, Copy, Debug, PartialEq, Eq)]
pub struct Halves {
    pub low: [u8; HALF],
    pub high: [u8; HALF],
}

// One product taken in two ways.
#[derive(Clone, Copy, Debug, PartialEq, Eq)]
pub struct TwoWays {
    pub halves: Gf,
    pub logarithms: Gf,
}

impl Halves {
    // The tables of c: eight doublings, and no logarithm.
    pub fn split(c: Gf) -> Halves
        ensures { Halved (val c) result.low result.high }
    {
        let a = c.0;
        let mut low = [0u8; HALF];
        let mut high = [0u8; HALF];
        let next = fill(a, &mut low);
        fill(next, &mut high);
        Halves { low, high }
    }
}

impl Multiplier for Halves {
    ghost is_by = { λ h c. Halved c h.low h.high };

    // The product with x, zero included; for tables of no value, the two entries, added.
    fn times(&self, x: u8) -> u8
        ensures entries { of result ≡ looked_up self.now.low self.now.high x }
        ensures product { (c : F) → Halved c self.now.low self.now.high → of result ≡ c ⊙ of x }
    {
        let b = usize::from(x);
        self.low[b % HALF] ^ self.high[b / HALF]
    }
}

// The product of c and x by half bytes and by logarithms: the same byte, whatever c and x are.
pub fn both(c: Gf, x: Gf) -> TwoWays
    ensures same { result.halves ≡ result.logarithms }
    ensures product { val result.halves ≡ val c ⊙ val x }
{
    let h = Halves::split(c);
    TwoWays {
        halves: Gf(h.times(x.0)),
        logarithms: c.product(x),
    }
}
