// Polynomials over GF(256) with at most 49 coefficients: sums and scalars.
// A loop of products runs 16 at a time, and only over coefficients that may differ from zero.
// The promises are equations of power series: `poly f` is the array f as a polynomial. A table of 48 syndromes is a
// sequence, `row s`.
#![tactic(auto)]

pub mod coefficients;
pub mod halves;
pub mod shift;
pub mod syndromes;

ghost use Rattle.std.specs.Prelude.{◌≤◌, ◌≡◌};
ghost use Rattle.field.specs.Field.{F, val};
ghost use Rattle.series.specs.Series.{O, K, ◌⊞◌, ◌⊠◌};
ghost use Rattle.series.specs.Degree.{below};
ghost use Rattle.polynomial.specs.Polynomial.{poly};

use field::Gf;
use kernel::Multiplier;

// The product with no table, for the scalars of those who multiply polynomials.
pub use kernel::product;

// How many coefficients a polynomial has: coefficient i stands at index i.
pub const COEFFICIENTS: usize = 49;

// The most syndromes of a word.
pub const SYNDROMES: usize = 48;

// The polynomial that is zero.
pub fn zero() -> [Gf; COEFFICIENTS]
    ensures { poly result ≡ O }
{
    [Gf::ZERO; COEFFICIENTS]
}

// The polynomial whose constant term is a and which has no other.
pub fn constant(a: Gf) -> [Gf; COEFFICIENTS]
    ensures { poly result ≡ K (val a) }
{
    let mut out = [Gf::ZERO; COEFFICIENTS];
    out[0] = a;
    out
}

// An index, 16, 32 or 49, from which on the coefficients are zero.
pub fn extent(f: [Gf; COEFFICIENTS]) -> usize
    ensures { below result (poly f) × (result ≤ 49) }
{
    if !kernel::is_zero(&f[32..]) {
        return COEFFICIENTS;
    }
    if !kernel::is_zero(&f[16..32]) {
        return 32;
    }
    16
}

// The multiple c f, by products that are lent and may serve several polynomials.
pub fn scale_by<M: Multiplier>(m: &M, f: [Gf; COEFFICIENTS]) -> [Gf; COEFFICIENTS]
    ensures { (c : F) → M.is_by m.now c → poly result ≡ K c ⊠ poly f }
{
    let mut out = [Gf::ZERO; COEFFICIENTS];
    for i in 0..extent(f) {
        out[i] = Gf(m.times(f[i].0));
    }
    out
}

// The multiple a f.
pub fn scale(a: Gf, f: [Gf; COEFFICIENTS]) -> [Gf; COEFFICIENTS]
    ensures { poly result ≡ K (val a) ⊠ poly f }
{
    if a == Gf::ZERO {
        return zero();
    }
    if a == Gf::ONE {
        return f;
    }
    scale_by(&a, f)
}

// The sum f + g.
pub fn sum(f: [Gf; COEFFICIENTS], g: [Gf; COEFFICIENTS]) -> [Gf; COEFFICIENTS]
    ensures { poly result ≡ poly f ⊞ poly g }
{
    let mut out = [Gf::ZERO; COEFFICIENTS];
    for i in 0..COEFFICIENTS {
        out[i] = f[i].sum(g[i]);
    }
    out
}

// The sum a f + b g. In most iterations of a solver b is zero.
pub fn combine(a: Gf, f: [Gf; COEFFICIENTS], b: Gf, g: [Gf; COEFFICIENTS]) -> [Gf; COEFFICIENTS]
    ensures { poly result ≡ K (val a) ⊠ poly f ⊞ K (val b) ⊠ poly g }
{
    let p = scale(a, f);
    if b.is_zero() {
        return p;
    }
    let q = scale(b, g);
    sum(p, q)
}
