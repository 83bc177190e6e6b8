// The table of powers of α, for loops that read many of them.
ghost use Rattle.std.specs.Prelude.{◌<◌, ◌≡◌};
ghost use Rattle.field.specs.Field.{α, pow, val};

use field::{Exponent, Gf};
use std::marker::Model;

#[derive(Drop)]
pub struct Powers(pub [u8; 256]);

impl Model for Powers {
    ghost use Rattle.std.specs.Prelude.{ℕ, ◌≡◌, List};
    ghost use Rattle.field.specs.Field.{power_table};

    ghost Value = { List ℕ };

    ghost view = { λ t. t.0 };

    ghost invariant = { λ t. t.0 ≡ power_table };
}

impl Powers {
    pub fn new() -> Self {
        Powers(field::powers())
    }

    // α^e.
    pub fn at(&self, e: Exponent) -> Gf
        requires { e.0 < 255 }
        ensures { val result ≡ pow α e.0 }
    {
        e.power_in(&self.0)
    }
}
