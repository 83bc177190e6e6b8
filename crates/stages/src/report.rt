// The report of a reading: a line for each subword, the number of changed symbols and of changed bits, the last stage
// entered: FORMAT 7. What it says stands in specs/Report.antt.
ghost use Rattle.std.specs.Prelude.{◌≤◌, ◌≡◌};
ghost use Rattle.staged_decoding.specs.Definition.{total, count_of, clean_line};
ghost use Rattle.staged_decoding.specs.Clean.{untouched};
ghost use Rattle.stages.specs.Report.{verdict_of, said, says, Started, Counted, Tells};

use profile::SUBWORDS;
use solver::{Form, Solver};

// Clean, or corrected with so many changes at that stage. An own enum: None of an Option would not say clean.
#[derive(Clone, Copy)]
pub enum Verdict {
    Clean,
    Corrected(u8, u8),
}

// The line of a subword: the verdict, how many of its bits were changed, and the last state of its solver, which is at
// its start if the subword is clean.
#[derive(Clone, Copy)]
pub struct Line {
    pub verdict: Verdict,
    pub bits: u16,
    pub solver: Solver,
}

// The lines of the subwords, lines that are no subword's being clean; how many symbols and how many bits were changed;
// the last stage entered.
#[derive(Clone, Copy)]
pub struct Report {
    pub lines: [Line; SUBWORDS],
    pub changed: u16,
    pub bits: u16,
    pub last: u8,
}

// How many symbols a line says were changed.
fn changes(l: Line) -> u16
    ensures value { result ≡ count_of (verdict_of l.verdict) }
    ensures small { result ≤ 255 }
{
    match l.verdict {
        Verdict::Clean => 0,
        Verdict::Corrected(count, _) => count as u16,
    }
}

// The report of m subwords, all settled, from their lines. No line has more bits than a subword of 255 symbols.
pub fn summed(lines: [Line; SUBWORDS], m: usize, last: u8) -> Report
    requires { (m ≤ 8) × Counted m lines }
    ensures kept { (result.lines ≡ lines) × (result.last ≡ last) }
    ensures changed { result.changed ≡ total m (λ i. count_of (says lines i).verdict) }
    ensures bits { result.bits ≡ total m (λ i. (says lines i).bits) }
{
    let mut changed = 0;
    let mut bits = 0;
    for i in 0..m {
        changed += changes(lines[i]);
        bits += lines[i].bits;
    }
    Report {
        lines,
        changed,
        bits,
        last,
    }
}

// The line of a subword in which nothing was changed, with its solver.
pub fn clean(s: Solver) -> Line
    ensures { (said result ≡ clean_line) × (result.solver ≡ s) }
{
    Line {
        verdict: Verdict::Clean,
        bits: 0,
        solver: s,
    }
}

// Eight lines at their start.
pub fn start(form: Form) -> [Line; SUBWORDS]
    ensures { Started form result }
{
    [clean(Solver::start(form)); SUBWORDS]
}

// The report of an untouched block: clean lines, nothing changed, stage 0.
pub fn empty(form: Form) -> Report
    ensures { Tells form untouched result }
{
    Report {
        lines: start(form),
        changed: 0,
        bits: 0,
        last: 0,
    }
}
