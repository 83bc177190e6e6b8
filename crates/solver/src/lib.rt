// A key-equation solver in a named form.
#![tactic(auto)]

pub mod continuation;
pub mod lookahead;
pub mod plain;
pub mod rounds;
pub mod scaled;
pub mod state;
mod swap;

ghost use Rattle.std.specs.Prelude.{ℕ, ◌+◌, ◌-◌, ◌≡◌, List};
ghost use Rattle.field.specs.Field.{F};
ghost use Rattle.polynomial.specs.Polynomial.{row};
ghost use Rattle.key_equation.specs.Recurrence.{ComplexityAfter};
ghost use Rattle.solver.specs.Solver.{form_of, named, Is};
ghost use Rattle.solver.specs.Solver.{clip, iterate_clipped, iterated, k_in};
ghost use Rattle.solver.specs.SolverLength.{HasLength, Stands};

use crate::lookahead::Lookahead;
use crate::plain::Plain;
use crate::scaled::Scaled;
use crate::state::State;
use field::Gf;
use polynomial::SYNDROMES;

// The three forms of the solver: plain, ahead and scaled in FORMAT 8.
#[derive(Clone, Copy, PartialEq, Eq, Debug)]
pub enum Form {
    Plain,
    Lookahead,
    Scaled,
}

// A solver: the state of the form that it has. Λ, B, γ and L, which every form has, are each taken by a match: as
// methods of State they would be this match all the same, and a body in each form.
#[derive(Clone, Copy)]
pub enum Solver {
    Plain(Plain),
    Lookahead(Lookahead),
    Scaled(Scaled),
}

impl Solver {
    // A solver in the named form, before its first round.
    pub fn start(form: Form) -> Solver
        ensures { Is form 0 result (form_of form).start }
    {
        match form {
            Form::Plain => Solver::Plain(Plain::start()),
            Form::Lookahead => Solver::Lookahead(Lookahead::start()),
            Form::Scaled => Solver::Scaled(Scaled::start()),
        }
    }

    // The form that it has.
    pub fn form(self) -> Form
        ensures { result ≡ named self }
    {
        match self {
            Solver::Plain(_) => Form::Plain,
            Solver::Lookahead(_) => Form::Lookahead,
            Solver::Scaled(_) => Form::Scaled,
        }
    }

    // Enters a round at u; s is the run's syndromes so far, zeros past the round.
    pub fn enter(self, u: u8, s: [Gf; SYNDROMES]) -> Solver
        ensures { (f : Form) (m : (form_of f).State) → Is f u self m
            → Is f u result ((form_of f).enter u (row s) m) }
    {
        match self {
            Solver::Plain(p) => Solver::Plain(p.enter(u, s)),
            Solver::Lookahead(p) => Solver::Lookahead(p.enter(u, s)),
            Solver::Scaled(p) => Solver::Scaled(p.enter(u, s)),
        }
    }

    // Takes the solver through iteration r.
    pub fn iterate(self, r: u8, s: [Gf; SYNDROMES]) -> Solver
        ensures { (f : Form) (m : (form_of f).State) → Is f r self m
            → Is f (r + 1) result (clip f ((form_of f).iterate r (row s) m)) }
    {
        match self {
            Solver::Plain(p) => Solver::Plain(p.iterate(r, s)),
            Solver::Lookahead(p) => Solver::Lookahead(p.iterate(r, s)),
            Solver::Scaled(p) => Solver::Scaled(p.iterate(r, s)),
        }
    }

    // Takes the solver through iterations `from` to `to` - 1, with one look at the form; there are none if `to` is not
    // above `from`.
    pub fn run(self, from: u8, to: u8, s: [Gf; SYNDROMES]) -> Solver
        ensures { (f : Form) (m : (form_of f).State) → Is f from self m
            → Is f (from + (to - from)) result (iterated (iterate_clipped f (row s)) from (to - from) m) }
    {
        match self {
            Solver::Plain(p) => Solver::Plain(p.run(from, to, s)),
            Solver::Lookahead(p) => Solver::Lookahead(p.run(from, to, s)),
            Solver::Scaled(p) => Solver::Scaled(p.run(from, to, s)),
        }
    }

    // Whether iteration r is a swap.
    pub fn swaps(self, r: u8, s: [Gf; SYNDROMES]) -> bool
        ensures { (f : Form) (m : (form_of f).State) → Is f r self m → result ≡ (form_of f).swapping r (row s) m }
    {
        match self {
            Solver::Plain(p) => p.swaps(r, s),
            Solver::Lookahead(p) => p.swaps(r, s),
            Solver::Scaled(p) => p.swaps(r, s),
        }
    }

    // The length L: after r iterations k is r - 2L. At every point of a run L is the linear complexity of the syndromes
    // that were iterated over: FORMAT 8.18.
    pub fn length(self) -> u16
        ensures has_length { HasLength self result }
        ensures least { (f : Form) (rounds : List (List F)) (k : ℕ) → Stands f rounds k self
            → ComplexityAfter rounds k result }
    {
        match self {
            Solver::Plain(p) => p.length,
            Solver::Lookahead(p) => p.length,
            Solver::Scaled(p) => p.length,
        }
    }

    // The number k after r iterations.
    pub fn k(self, r: u8) -> i32
        ensures { (f : Form) (m : (form_of f).State) → Is f r self m → result ≡ k_in f m }
    {
        crate::swap::k(self.length(), r)
    }
}
