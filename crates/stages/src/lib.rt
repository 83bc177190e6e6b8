// Staged decoding of a block that is lent: subwords are corrected in place, stage after stage. What the promises speak
// of stands in staged_decoding's specs/Definition.antt; how the values here show it, in specs/View.antt.
#![tactic(auto)]

mod attempt;
pub mod report;
mod subword;

ghost use Rattle.std.specs.Prelude.{◌-◌, ◌*◌, ◌≤◌, ◌<◌, ◌≡◌, ◌&&◌, leb, map};
ghost use Rattle.series.specs.Array.{bytes};
ghost use Rattle.profile.specs.Valid.{Valid};
ghost use Rattle.block.specs.Parts.{Fits};
ghost use Rattle.block.specs.Table.{table};
ghost use Rattle.code.specs.Check.{received};
ghost use Rattle.block.specs.CodewordDefinition.{Further};
ghost use Rattle.stages.specs.View.{pending?, view, waiting, Before, Came, Extended, Reported, Reached};

use crate::report::Line;
use crate::subword::State;
use field::Gf;
use polynomial::SYNDROMES;
use profile::{Profile, SUBWORDS};
use solver::{Form, Solver};

// Where decoding ended: after which stage, with which lines. The line of a subword that is not settled says clean, and
// its solver is at the end of that stage.
#[derive(Clone, Copy)]
pub struct Ending {
    pub stage: u8,
    pub lines: [Line; SUBWORDS],
}

// Which subwords are pending.
fn pending(states: &[State; SUBWORDS]) -> [bool; SUBWORDS]
    ensures { result ≡ map pending? states.now }
{
    // A loop: by array::from_fn, over states that are lent, the goal `returns` stays open.
    let mut flags = [false; SUBWORDS];
    for i in 0..SUBWORDS {
        flags[i] = states[i].is_pending();
    }
    flags
}

// The lines of the subwords in the report.
fn lines(states: [State; SUBWORDS]) -> [Line; SUBWORDS]
    ensures { Reported states result }
{
    states.map(|s| s.line())
}

// Stage r of every subword.
fn stage(
    p: Profile,
    r: u8,
    states: &mut [State; SUBWORDS],
    table: [[Gf; SYNDROMES]; SUBWORDS],
    block: &mut [u8],
)
    requires { Fits p block.old × (r ≤ p.nested) }
    ensures { (f : Form) → Before p f r (view block.old states.old table) states.old
        → Came p f r (view block.old states.old table) block.new states.new table }
{
    for i in 0..p.subwords as usize {
        // In two steps: the borrow checker does not cover a result that goes straight into an array.
        let after = crate::subword::stage(p, r, i, states[i], table[i], block);
        states[i] = after;
    }
}

// Round r + 1: the rows of the pending subwords go on to the next stage's syndromes.
fn round(
    p: Profile,
    u: &[u64],
    r: u8,
    states: &[State; SUBWORDS],
    table: [[Gf; SYNDROMES]; SUBWORDS],
    block: &[u8],
) -> [[Gf; SYNDROMES]; SUBWORDS]
    requires { Fits p block.now × Further p u.now × (r < p.nested) }
    ensures { Extended p r block.now states.now table result }
{
    let from = 2 * p.capability(r) as usize;
    let to = 2 * p.capability(r + 1) as usize;
    extend::extend(p, u, pending(states), block, from, to, table)
}

// How many subwords are pending.
fn unsettled(p: Profile, states: &[State; SUBWORDS]) -> usize
    requires { p.subwords ≤ 8 }
    ensures { result ≡ waiting p states.now }
{
    extend::lagrange::unsettled(p, pending(states))
}

// Whether a round follows stage r: some subwords are pending, and not too many.
fn follows(p: Profile, r: u8, states: &[State; SUBWORDS]) -> bool
    requires { Valid p × (r ≤ p.nested) }
    ensures { result ≡ (leb 1 (waiting p states.now) && leb (waiting p states.now) (p.nested - r)) }
{
    let b = unsettled(p, states);
    1 <= b && b <= (p.nested - r) as usize
}

// The stages, up to the one after which every subword is settled or too many are not, from the received subwords'
// syndromes. A round goes by the table for the further roots of nested words. Err: too many are not settled.
pub fn run(
    p: Profile,
    form: Form,
    u: &[u64],
    syndromes: [[Gf; SYNDROMES]; SUBWORDS],
    block: &mut [u8],
) -> Result<Ending, Ending>
    requires { Fits p block.old × Further p u.now
        × (table syndromes ≡ received p (bytes block.old) (2 * p.t0)) }
    ensures { Reached p form (bytes block.old) (bytes block.new) result }
{
    let mut table = syndromes;
    let mut states = [State::Pending(Solver::start(form)); SUBWORDS];
    stage(p, 0, &mut states, table, block);
    let mut r: u8 = 0;
    while follows(p, r, &states) {
        let further = round(p, u, r, &states, table, block);
        table = further;
        r += 1;
        stage(p, r, &mut states, table, block);
    }
    let end = Ending {
        stage: r,
        lines: lines(states),
    };
    if unsettled(p, &states) == 0 {
        return Ok(end);
    }
    Err(end)
}
