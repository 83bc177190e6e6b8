// The values of a polynomial at the inverse locations of all positions, three positions at a time. Term i of the value
// at W p is held by its exponent of α: from a position to the next it loses i, modulo 255, so thirty-two terms go on at
// once with no product. The 85 positions from p = 0 on do for all 255, since W 85 has order three.
ghost use Rattle.std.specs.Prelude.{◌≤◌, ◌<◌, ◌≡◌};
ghost use Rattle.std.proofs.Math.Logic.{ite};
ghost use Rattle.field.specs.Field.{𝟎, ◌⊙◌, ◌≟◌, val};
ghost use Rattle.series.specs.Shift.{cut};
ghost use Rattle.series.specs.Degree.{below};
ghost use Rattle.series.specs.Value.{value};
ghost use Rattle.series.specs.Array.{values};
ghost use Rattle.polynomial.specs.Polynomial.{poly};
ghost use Rattle.kernel.specs.ProductRow.{factor};
ghost use Rattle.settling.specs.Locator.{W};
ghost use Rattle.settle.specs.PositionsTerm.{terms};
ghost use Rattle.settle.specs.PositionsExponent.{symbol, symbols, Steps};
ghost use Rattle.settle.specs.PositionsThird.{third, three};

use crate::powers::Powers;
use field::{Exponent, Gf};
use kernel::{Multiplier, Row, index};
use polynomial::COEFFICIENTS;
use profile::POSITIONS;

// Room for the 25 terms of a locator of 24 changes: sixteen bytes are taken at a time.
const LANES: usize = 32;

// A term by its exponent of α in one byte, never a field value: below 255 the power of that exponent, 255 for zero, as
// the table of powers has it.
#[derive(Clone, Copy)]
struct Lane(u8);

// A term that is zero.
const NONE: Lane = Lane(255);

// What the exponent of a term loses from a position to the next.
#[derive(Clone, Copy)]
struct Loss(u8);

// The sums of the terms whose index is 0, 1 or 2 modulo 3; or the values at three positions, 85 from one another.
#[derive(Clone, Copy)]
struct Three {
    a: Gf,
    b: Gf,
    c: Gf,
}

// A symbol by its exponent.
fn exponent(g: Gf) -> Lane
    ensures { symbol result.0 ≡ val g }
{
    if g.is_zero() {
        NONE
    } else {
        Lane(g.log().0 as u8)
    }
}

// The symbol of an exponent: a lookup in the table of powers.
fn power_of(power: &Powers, e: Lane) -> Gf
    ensures { val result ≡ symbol e.0 }
{
    Gf(power.0[index(e.0)])
}

// The terms of the first k coefficients at position 0.
fn exponents(f: [Gf; COEFFICIENTS], k: usize) -> [Lane; LANES]
    requires { k ≤ 25 }
    ensures { symbols result ≡ cut k (poly f) }
{
    let mut out = [NONE; LANES];
    for i in 0..k {
        out[i] = exponent(f[i]);
    }
    out
}

// What term i loses from a position to the next: a term that is zero stays.
fn step(e: Lane, i: usize) -> Loss
    requires { i < 256 }
    ensures { result.0 ≡ ite (symbol e.0 ≟ 𝟎) 0 i }
{
    if e.0 == 255 { Loss(0) } else { Loss(i as u8) }
}

// What each of k terms loses from a position to the next, and nothing after them. A loop over all 32 would be unrolled,
// and what it makes put together from pieces again in every pass of `at_positions`.
fn steps(e: [Lane; LANES], k: usize) -> [Loss; LANES]
    requires { (k ≤ 32) × below k (symbols e) }
    ensures { Steps (symbols e) result }
{
    let mut out = [Loss(0); LANES];
    for i in 0..k {
        out[i] = step(e[i], i);
    }
    out
}

// The exponent e less s, modulo 255.
fn back(e: Lane, s: Loss) -> Lane
    requires { e.0 ≡ 255 → s.0 ≡ 0 }
    ensures { symbol result.0 ≡ symbol e.0 ⊙ W s.0 }
{
    if e.0 < s.0 {
        Lane(255 - (s.0 - e.0))
    } else {
        Lane(e.0 - s.0)
    }
}

// The terms at the next position: no table and no branch, so the compiler takes sixteen of them at a time.
fn next(e: [Lane; LANES], step: [Loss; LANES]) -> [Lane; LANES]
    requires { Steps (symbols e) step }
    ensures { symbols result ≡ terms (W 1) (symbols e) }
{
    let mut out = [NONE; LANES];
    for i in 0..LANES {
        out[i] = back(e[i], step[i]);
    }
    out
}

// The sums of every third of k terms.
fn sums(power: &Powers, e: [Lane; LANES], k: usize) -> Three
    requires { (k ≤ 25) × below k (symbols e) }
    ensures { (val result.a ≡ third 0 9 (symbols e)) × (val result.b ≡ third 1 9 (symbols e)) ×
        (val result.c ≡ third 2 9 (symbols e)) }
{
    let mut a = Gf::ZERO;
    let mut b = Gf::ZERO;
    let mut c = Gf::ZERO;
    for m in 0..k.div_ceil(3) {
        a = a.sum(power_of(power, e[3 * m]));
        b = b.sum(power_of(power, e[3 * m + 1]));
        c = c.sum(power_of(power, e[3 * m + 2]));
    }
    Three { a, b, c }
}

// The values at three positions from the sums at the first of them: with w = W 85, w·w is w + 1, so two products are
// enough.
fn spread(row: &Row, s: Three) -> Three
    requires { factor row.now.products ≡ W 85 }
    ensures { (val result.a ≡ three (W 0) (val s.a) (val s.b) (val s.c)) ×
        (val result.b ≡ three (W 85) (val s.a) (val s.b) (val s.c)) ×
        (val result.c ≡ three (W 170) (val s.a) (val s.b) (val s.c)) }
{
    let a = s.a;
    let b = s.b;
    let c = s.c;
    let wb = row.times(b.0);
    let wc = row.times(c.0);
    Three {
        a: Gf(a.0 ^ b.0 ^ c.0),
        b: Gf(a.0 ^ wb ^ wc ^ c.0),
        c: Gf(a.0 ^ wb ^ b.0 ^ wc),
    }
}

// The values of the polynomial with the first k coefficients of f at W 0 to W 254.
pub fn at_positions(f: [Gf; COEFFICIENTS], k: usize) -> [Gf; POSITIONS]
    requires { k ≤ 25 }
    ensures { values result ≡ cut 255 (λ p. value k (poly f) (W p)) }
{
    let power = Powers::new();
    let row = kernel::product_row(Exponent(170).power());
    let mut e = exponents(f, k);
    let step = steps(e, k);
    let mut out = [Gf::ZERO; POSITIONS];
    for p in 0..85 {
        let v = spread(&row, sums(&power, e, k));
        out[p] = v.a;
        out[p + 85] = v.b;
        out[p + 170] = v.c;
        // Two steps: the proof of borrows does not cover a call's result that is laid straight into an array.
        let on = next(e, step);
        e = on;
    }
    out
}
