// The value of an error in two ways, from the state of a key-equation solver in any form: by the evaluator, which is
// Forney's formula, and by the auxiliary polynomial: FORMAT 8.19, where it is the change at a place. What the promises
// speak of stands in specs/Definition.antt and in settling's specs/ErrorValue.antt; that both are the change at a place
// that a pattern changes, and that no divisor is zero there, in specs/Theorems.antt.
#![tactic(auto)]

mod omega;

ghost use Rattle.std.specs.Prelude.{ℕ, ◌≤◌, min, ◌≡◌};
ghost use Rattle.field.specs.Field.{◌⊙◌, pow, val};
ghost use Rattle.series.specs.Shift.{cut};
ghost use Rattle.series.specs.Array.{bytes};
ghost use Rattle.polynomial.specs.Polynomial.{poly, row};
ghost use Rattle.kernel.specs.ProductRow.{products};
ghost use Rattle.settling.specs.Locator.{W};
ghost use Rattle.settling.specs.Twist.{inverse_multiplier};
ghost use Rattle.settling.specs.ErrorValue.{odd_at, divisor};
ghost use Rattle.solver.specs.Solver.{form_of, Is};
ghost use Rattle.error_values.specs.Definition.{B_in, factor_in, evaluator_value, auxiliary_value};

use field::{Exponent, Gf};
use kernel::{Row, product};
use polynomial::syndromes::coefficient;
use polynomial::{COEFFICIENTS, SYNDROMES, coefficients};
use solver::scaled::one_if_zero;
use solver::{Form, Solver};

// How many iterations were made: a run has at most 48, and a number above counts as 48.
fn iterations(k: u8) -> usize
    ensures { result ≡ min k 48 }
{
    (k as usize).min(SYNDROMES)
}

// The inverse location of position p to the power k.
fn inverse_power(p: u8, k: usize) -> Gf
    requires { k ≤ 48 }
    ensures { val result ≡ pow (W p) k }
{
    let e = 255 - p as usize;
    Exponent(e * k).power()
}

// The row of products by the inverse location of position p.
fn inverse_row(p: u8) -> Row
    ensures { bytes result.products ≡ cut 256 (products (W p)) }
{
    kernel::product_row(inverse_power(p, 1))
}

// The value y that was found with the first root α, for the first root α^first: times the location of position p to the
// power 1 - first.
fn untwisted(first: u8, p: u8, y: Gf) -> Gf
    ensures { val result ≡ inverse_multiplier first p ⊙ val y }
{
    let e = settle::untwist::less(first);
    product(Exponent(p as usize * e).power(), y)
}

// B in the form that the solver has, by a match as in continuation::locator: see Solver.
fn auxiliary(s: Solver) -> [Gf; COEFFICIENTS]
    ensures { (r : ℕ) (f : Form) (m : (form_of f).State) → Is f r s m → poly result ≡ B_in f m }
{
    match s {
        Solver::Plain(p) => p.auxiliary,
        Solver::Lookahead(p) => p.auxiliary,
        Solver::Scaled(p) => p.auxiliary,
    }
}

// The factor of the auxiliary way after k iterations: γ, and in the scaled form γ' times S'_k.
fn factor(s: Solver, k: usize, syndromes: [Gf; SYNDROMES]) -> Gf
    ensures { (r : ℕ) (f : Form) (m : (form_of f).State) → Is f r s m
        → val result ≡ factor_in f k (row syndromes) m }
{
    match s {
        Solver::Plain(p) => p.gamma,
        Solver::Lookahead(p) => p.gamma,
        Solver::Scaled(p) => {
            let x = coefficient(syndromes, k);
            product(p.gamma, one_if_zero(x, x))
        }
    }
}

// The odd part of Λ at the inverse location of position p: the divisor of the first way.
fn odd_value(locator: [Gf; COEFFICIENTS], p: u8) -> Gf
    ensures { val result ≡ odd_at 49 (poly locator) p }
{
    let row = inverse_row(p);
    let part = coefficients::odd(locator, COEFFICIENTS);
    kernel::value(&row, &part)
}

// B there, times the odd part of Λ: the divisor of the second way. One row of products serves both values.
fn both_values(locator: [Gf; COEFFICIENTS], auxiliary: [Gf; COEFFICIENTS], p: u8) -> Gf
    ensures { val result ≡ divisor 49 (poly locator) (poly auxiliary) p }
{
    let row = inverse_row(p);
    let odds = coefficients::odd(locator, COEFFICIENTS);
    let all = coefficients::all(auxiliary);
    product(kernel::value(&row, &all), kernel::value(&row, &odds))
}

// The value of the error at position p by the evaluator, from the state after k iterations over the syndromes; the
// first root is α^first. Whatever the state is, the value is what the formula says, the inverse of zero being zero.
pub fn by_evaluator(first: u8, s: Solver, k: u8, syndromes: [Gf; SYNDROMES], p: u8) -> Gf
    ensures { (r : ℕ) (f : Form) (m : (form_of f).State) → Is f r s m
        → val result ≡ evaluator_value first k (row syndromes) p f m }
{
    let locator = solver::continuation::locator(s);
    let omega = crate::omega::value(locator, syndromes, iterations(k), p);
    let top = product(inverse_power(p, 1), omega);
    let bottom = odd_value(locator, p);
    untwisted(first, p, product(top, bottom.inverse()))
}

// The same by the auxiliary polynomial: of the syndromes it reads one, and that in the scaled form alone.
pub fn by_auxiliary(first: u8, s: Solver, k: u8, syndromes: [Gf; SYNDROMES], p: u8) -> Gf
    ensures { (r : ℕ) (f : Form) (m : (form_of f).State) → Is f r s m
        → val result ≡ auxiliary_value first k (row syndromes) p f m }
{
    let locator = solver::continuation::locator(s);
    let b = auxiliary(s);
    let n = iterations(k);
    let g = product(factor(s, n, syndromes), locator[0]);
    let dividend = product(g, inverse_power(p, n));
    let divisor = both_values(locator, b, p);
    untwisted(first, p, product(dividend, divisor.inverse()))
}
