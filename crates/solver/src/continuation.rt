// A solver that is kept from round to round: one more round, and its locator. What the promises speak of stands in
// specs/ContinuationDefinition.antt. That a solver at the end of rounds, taken through the next one, is at that one's
// end, stands in specs/ContinuationState.antt; that its locator is then a multiple of the measure's, and Solver::length
// the shortest length, in specs/ContinuationEnd.antt.
ghost use Rattle.std.specs.Prelude.{ℕ, ◌≡◌};
ghost use Rattle.polynomial.specs.Polynomial.{poly, row as Row};
ghost use Rattle.solver.specs.Solver.{form_of, Is, Λ_in};
ghost use Rattle.solver.specs.ContinuationDefinition.{Advanced};

use crate::{Form, Solver};
use field::Gf;
use polynomial::{COEFFICIENTS, SYNDROMES};

// Takes the solver through one more round: it is entered at `from`, and its iterations are `from` to `to` - 1. The row
// is the syndromes so far, the round's among them, and zeros past the round.
pub fn advance(s: Solver, from: u8, to: u8, row: [Gf; SYNDROMES]) -> Solver
    ensures { Advanced from to (Row row) s result }
{
    s.enter(from, row).run(from, to, row)
}

// Λ in the form that the solver has.
pub fn locator(s: Solver) -> [Gf; COEFFICIENTS]
    ensures { (r : ℕ) (f : Form) (m : (form_of f).State) → Is f r s m → poly result ≡ Λ_in f m }
{
    match s {
        Solver::Plain(p) => p.locator,
        Solver::Lookahead(p) => p.locator,
        Solver::Scaled(p) => p.locator,
    }
}
