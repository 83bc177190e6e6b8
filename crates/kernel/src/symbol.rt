// Symbols, as bytes or as field values, and lists of them that are zero.
ghost use Rattle.std.specs.Prelude.{◌≡◌, ◌↔◌, IsTrue, map};
ghost use Rattle.field.specs.Field.{F, of, val};
ghost use Rattle.series.specs.Series.{O};
ghost use Rattle.series.specs.Word.{entry};

use field::Gf;

// A type whose values are symbols.
pub trait Symbol: Copy {
    ghost value: { Self → F };

    fn byte(self) -> u8
        ensures { of result ≡ value self };
}

impl Symbol for u8 {
    ghost value = { of };

    fn byte(self) -> u8 {
        self
    }
}

impl Symbol for Gf {
    ghost value = { val };

    fn byte(self) -> u8 {
        self.0
    }
}

// Whether all symbols are zero: their bits, taken together. No branch is taken in the loop, so that many are looked at
// at a time.
pub fn is_zero<S: Symbol>(list: &[S]) -> bool
    ensures { IsTrue result ↔ (entry (map S.value list.now) ≡ O) }
{
    let mut bits: u8 = 0;
    for s in list {
        bits |= s.byte();
    }
    bits == 0
}
