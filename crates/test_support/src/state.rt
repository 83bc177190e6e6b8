// A solver's state as text, part by part, of the form that it has. What the promises speak of stands in
// specs/State.antt.
ghost use Rattle.std.specs.Prelude.{◌≡◌, [], ◌∷◌};
ghost use Rattle.listing.specs.Definition.{Appended};
ghost use Rattle.test_support.specs.Text.{number_text};
ghost use Rattle.test_support.specs.State.{top, name_text, polynomial_text, part_text};
ghost use Rattle.test_support.specs.State.{polynomials_text, held_text, place_text};
ghost use Rattle.test_support.specs.State.{lookahead_scalars, scaled_scalars};

use crate::print::{difference, number, numbers};
use field::Gf;
use listing::text::Text;
use polynomial::COEFFICIENTS;
use solver::lookahead::Lookahead;
use solver::scaled::Scaled;
use solver::{Form, Solver};

// The name of a form.
pub fn name(form: Form) -> &'static str
    ensures { result.now ≡ name_text form }
{
    match form {
        Form::Plain => "plain",
        Form::Lookahead => "lookahead",
        Form::Scaled => "scaled",
    }
}

// The index of the last coefficient that is not zero, or 0.
fn degree(f: [Gf; COEFFICIENTS]) -> usize
    ensures { result ≡ top f 48 }
{
    for n in (1..COEFFICIENTS).rev() {
        if f[n].0 != 0 {
            return n;
        }
    }
    0
}

// A symbol, as a number after a space.
fn value<const N: usize>(line: &mut Text<N>, x: Gf)
    ensures { Appended N (number_text x.0) line.old line.new }
{
    number(line, usize::from(x.0));
}

// The coefficients of a polynomial up to its degree.
fn polynomial<const N: usize>(line: &mut Text<N>, f: [Gf; COEFFICIENTS])
    ensures { Appended N (polynomial_text f) line.old line.new }
{
    let n = degree(f) + 1;
    line.put(b" |");
    for i in 0..n {
        value(line, f[i]);
    }
}

// Two polynomials and scalars.
fn part<const N: usize>(
    line: &mut Text<N>,
    f: [Gf; COEFFICIENTS],
    g: [Gf; COEFFICIENTS],
    scalars: &[u8],
)
    ensures { Appended N (part_text f g scalars.now) line.old line.new }
{
    polynomial(line, f);
    polynomial(line, g);
    line.put(b" |");
    numbers(line, scalars);
}

// Two polynomials and one scalar.
fn key<const N: usize>(line: &mut Text<N>, f: [Gf; COEFFICIENTS], b: [Gf; COEFFICIENTS], gamma: Gf)
    ensures { Appended N (part_text f b (gamma.0 ∷ [])) line.old line.new }
{
    part(line, f, b, &[gamma.0]);
}

// Λ, B and γ.
pub fn polynomials<const N: usize>(line: &mut Text<N>, s: Solver)
    ensures { Appended N (polynomials_text s) line.old line.new }
{
    match s {
        Solver::Plain(p) => key(line, p.locator, p.auxiliary, p.gamma),
        Solver::Lookahead(p) => key(line, p.locator, p.auxiliary, p.gamma),
        Solver::Scaled(p) => key(line, p.locator, p.auxiliary, p.gamma),
    }
}

// k and L, of a solver of that length: after r iterations k is r - 2L.
pub fn place<const N: usize>(line: &mut Text<N>, r: usize, length: u16)
    ensures { Appended N (place_text r length) line.old line.new }
{
    let l = usize::from(length);
    difference(line, r, 2 * l);
    number(line, l);
}

// The scalars that the lookahead form holds.
pub fn lookahead_scalars(p: Lookahead) -> [u8; 7]
    ensures { result ≡ lookahead_scalars p }
{
    [
        p.gamma_s.0,
        p.delta_s.0,
        p.theta_s.0,
        p.g1.0,
        p.g2.0,
        p.h1.0,
        p.h2.0,
    ]
}

// The scalars that the scaled form holds.
pub fn scaled_scalars(p: Scaled) -> [u8; 5]
    ensures { result ≡ scaled_scalars p }
{
    [p.ratio.0, p.rho.0, p.xi.0, p.rho_s.0, p.xi_s.0]
}

// Δ, Θ and the held scalars; nothing in the plain form, which has none.
pub fn held<const N: usize>(line: &mut Text<N>, s: Solver)
    ensures { Appended N (held_text s) line.old line.new }
{
    match s {
        Solver::Plain(_) => {}
        Solver::Lookahead(p) => part(line, p.delta, p.theta, &lookahead_scalars(p)),
        Solver::Scaled(p) => part(line, p.delta, p.theta, &scaled_scalars(p)),
    }
}
