// One stage of one subword that is not settled yet. What the promises speak of stands in specs/AttemptDefinition.antt.
ghost use Rattle.std.specs.Prelude.{◌*◌, ◌≤◌, ◌≡◌, IfSome};
ghost use Rattle.polynomial.specs.Polynomial.{row as Row};
ghost use Rattle.profile.specs.Definition.{capability, first-root};
ghost use Rattle.profile.specs.Valid.{Valid};
ghost use Rattle.staged_decoding.specs.Definition.{settle_at, rounds_of};
ghost use Rattle.solver.specs.ContinuationDefinition.{Ended};
ghost use Rattle.settle.specs.Answer.{answer, Sound};
ghost use Rattle.stages.specs.AttemptDefinition.{seen_before as SeenBefore, Ready, Tried};

use field::Gf;
use polynomial::SYNDROMES;
use profile::Profile;
use settle::Settled;
use solver::{Form, Solver};

// The solver after the stage, kept for the next one, and the pattern that it found, if any.
#[derive(Clone, Copy)]
pub struct Attempted {
    pub solver: Solver,
    pub settled: Option<Settled>,
}

// The most errors that stage r corrects: t_r.
fn correctable(p: Profile, r: u8) -> u8
    requires { Valid p × (r ≤ p.nested) }
    ensures { (result ≡ capability p r) × (result ≤ 24) }
{
    p.capability(r)
}

// How many syndromes stage r looks at: 2 t_r.
fn seen(p: Profile, r: u8) -> u8
    requires { Valid p × (r ≤ p.nested) }
    ensures { result ≡ 2 * capability p r }
{
    2 * correctable(p, r)
}

// How many the stages before it look at.
fn seen_before(p: Profile, r: u8) -> u8
    requires { Valid p × (r ≤ p.nested) }
    ensures { result ≡ SeenBefore p r }
{
    if r == 0 { 0 } else { seen(p, r - 1) }
}

// What a solver has found is tried: of the row the first 2t syndromes count, n is the subword's length, and α^first is
// the first root.
fn tried(first: u8, s: Solver, row: [Gf; SYNDROMES], n: usize, t: usize) -> Option<Settled>
    requires { (n ≤ 255) × (t ≤ 24) }
    ensures { Tried first t n (Row row) s result }
{
    let locator = solver::continuation::locator(s);
    settle::settle(first, locator, s.length() as usize, row, n, t)
}

// Stage r of a subword that is not settled: the solver goes on from what it kept, and its locator is tried.
pub fn attempt(p: Profile, r: u8, s: Solver, row: [Gf; SYNDROMES]) -> Attempted
    requires { Valid p × (r ≤ p.nested) }
    ensures sound { IfSome result.settled (Sound (first-root p) (capability p r) p.length (Row row)) }
    ensures settled { (f : Form) → Ready p f r (Row row) s
        → answer p.length result.settled ≡ settle_at p r (Row row) }
    ensures solver { (f : Form) → Ready p f r (Row row) s → Ended f (rounds_of p (Row row) r) result.solver }
{
    let n = p.length as usize;
    let t = correctable(p, r) as usize;
    let solver = solver::continuation::advance(s, seen_before(p, r), seen(p, r), row);
    Attempted {
        solver,
        settled: tried(p.first_root, solver, row, n, t),
    }
}
