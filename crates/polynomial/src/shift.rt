// Polynomials of 49 coefficients whose terms are moved: times z, over z.
ghost use Rattle.std.specs.Prelude.{◌≡◌};
ghost use Rattle.series.specs.Series.{Z, ◌⊠◌, tail};
ghost use Rattle.series.specs.Shift.{cut};
ghost use Rattle.polynomial.specs.Polynomial.{poly};

use crate::COEFFICIENTS;
use field::Gf;

// The highest degree.
const DEGREE: usize = COEFFICIENTS - 1;

// The polynomial times z, whose top coefficient is lost.
pub fn times_z(f: [Gf; COEFFICIENTS]) -> [Gf; COEFFICIENTS]
    ensures { poly result ≡ cut 49 (Z ⊠ poly f) }
{
    // No copy_from_slice: as a call it took 2 % more of the instructions that read a block with 15 changes in a strip.
    let mut out = [Gf::ZERO; COEFFICIENTS];
    for i in 0..DEGREE {
        out[i + 1] = f[i];
    }
    out
}

// The polynomial divided by z, whose constant term is lost.
pub fn over_z(f: [Gf; COEFFICIENTS]) -> [Gf; COEFFICIENTS]
    ensures { poly result ≡ tail (poly f) }
{
    let mut out = [Gf::ZERO; COEFFICIENTS];
    for i in 0..DEGREE {
        out[i] = f[i + 1];
    }
    out
}
