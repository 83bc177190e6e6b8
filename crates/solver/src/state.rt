// What the three forms of the key-equation solver share: a state, what it stands for, and how a run goes on from it.
ghost use Rattle.std.specs.Prelude.{ℕ, ◌+◌, ◌-◌, ◌≡◌};
ghost use Rattle.polynomial.specs.Polynomial.{row};
ghost use Rattle.solver.specs.declared.Form.{Form};
ghost use Rattle.solver.specs.Solver.{form_of, iterate_clipped, iterated};

use field::Gf;
use polynomial::SYNDROMES;

// The state of a form of the solver: its name, and what the state stands for after r iterations. r and s stay two
// parameters: r goes on with each iteration, s stays for a whole round.
pub trait State: Copy {
    ghost form: { Form };

    ghost view: { ℕ → Self → (form_of form).State };

    // The state before the first round.
    fn start() -> Self
        ensures { view 0 result ≡ (form_of form).start };

    // Takes the state into a round that begins at u; s is the run's syndromes so far, zeros past the round.
    fn enter(self, u: u8, s: [Gf; SYNDROMES]) -> Self
        ensures { view u result ≡ (form_of form).enter u (row s) (view u self) };

    // Whether iteration r is a swap.
    fn swaps(self, r: u8, s: [Gf; SYNDROMES]) -> bool
        ensures { result ≡ (form_of form).swapping r (row s) (view r self) };

    // Takes the state through iteration r. Polynomials have 49 coefficients: what would be above is lost.
    fn iterate(self, r: u8, s: [Gf; SYNDROMES]) -> Self
        ensures { view (r + 1) result ≡ iterate_clipped form (row s) r (view r self) };

    // Takes the state through iterations `from` to `to` - 1; there are none if `to` is not above `from`.
    fn run(self, from: u8, to: u8, s: [Gf; SYNDROMES]) -> Self
        ensures { view (from + (to - from)) result ≡
            iterated (iterate_clipped form (row s)) from (to - from) (view from self) }
    {
        let mut p = self;
        for r in from..to {
            p = p.iterate(r, s);
        }
        p
    }
}
