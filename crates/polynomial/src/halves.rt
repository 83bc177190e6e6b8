// Multiples of polynomials by half-byte tables: 32 bytes of tables for a scalar, and no other. A solver on a machine
// with little memory for tables takes its products from here in place of `scale`; the promise is the same.
ghost use Rattle.std.specs.Prelude.{◌≡◌};
ghost use Rattle.field.specs.Field.{val};
ghost use Rattle.series.specs.Series.{K, ◌⊠◌};
ghost use Rattle.polynomial.specs.Polynomial.{poly};

use crate::COEFFICIENTS;
use field::Gf;
use kernel::halves::Halves;

// The multiple a f.
pub fn scale(a: Gf, f: [Gf; COEFFICIENTS]) -> [Gf; COEFFICIENTS]
    ensures { poly result ≡ K (val a) ⊠ poly f }
{
    let h = Halves::split(a);
    crate::scale_by(&h, f)
}
