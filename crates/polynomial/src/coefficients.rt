// The coefficients of a polynomial as bytes, for those who take values: all of them, or those of odd powers.
ghost use Rattle.std.specs.Prelude.{◌≤◌, ◌≡◌};
ghost use Rattle.series.specs.Shift.{cut};
ghost use Rattle.series.specs.Value.{odd as Odd};
ghost use Rattle.series.specs.Array.{bytes};
ghost use Rattle.polynomial.specs.Polynomial.{poly};

use crate::COEFFICIENTS;
use field::Gf;

// All coefficients.
pub fn all(f: [Gf; COEFFICIENTS]) -> [u8; COEFFICIENTS]
    ensures { bytes result ≡ poly f }
{
    f.map(|g| g.0)
}

// The first k coefficients, those of even powers zero.
pub fn odd(f: [Gf; COEFFICIENTS], k: usize) -> [u8; COEFFICIENTS]
    requires { k ≤ 49 }
    ensures { bytes result ≡ cut k (Odd (poly f)) }
{
    let mut out = [0u8; COEFFICIENTS];
    for i in 0..k / 2 {
        out[2 * i + 1] = f[2 * i + 1].0;
    }
    out
}
