// Runs of a key-equation solver over lists of rounds.
ghost use Rattle.std.specs.Prelude.{ℕ, ◌+◌, ◌≤◌, ◌<◌, min, ◌≡◌, ◌&&◌, length, get_or, take, leb};
ghost use Rattle.series.specs.Word.{entry};
ghost use Rattle.polynomial.specs.Polynomial.{row};
ghost use Rattle.key_equation.specs.Run.{events as Events};
ghost use Rattle.key_equation.specs.Recurrence.{ComplexityAfter, Complexity};
ghost use Rattle.solver.specs.RoundsRun.{syndromes_of, rounds_of, Ran};
ghost use Rattle.solver.specs.RoundsEvent.{Going, Arrived};

use crate::{Form, Solver};
use field::Gf;
use polynomial::SYNDROMES;

// Where a run is: the solver as it was handed back last, the iterations so far, and which of them were swaps.
#[derive(Clone, Copy)]
pub struct Progress {
    pub solver: Solver,
    pub iterations: u8,
    pub swapped: [bool; SYNDROMES],
}

// A run on its way: the syndromes so far and how many they are, and how many rounds have been entered.
#[derive(Clone, Copy)]
struct Walk {
    progress: Progress,
    syndromes: [Gf; SYNDROMES],
    known: usize,
    entered: usize,
}

// The rounds that are lent. `run` and `linear_complexity` keep the two slices as parameters: README names them.
#[derive(Clone, Copy)]
struct Rounds<'a> {
    syndromes: &'a [u8],
    lengths: &'a [u8],
}

impl Rounds<'_> {
    // A row of the first n syndromes, then zeros.
    fn first(self, n: usize) -> [Gf; SYNDROMES]
        requires { n ≤ length (syndromes_of self.syndromes.now) }
        ensures { row result ≡ entry (take n (syndromes_of self.entry.syndromes.now)) }
    {
        let mut s = [Gf::ZERO; SYNDROMES];
        for i in 0..n {
            s[i] = Gf(self.syndromes[i]);
        }
        s
    }

    // How many syndromes there are when the next round has been entered.
    fn reach(self, w: Walk) -> usize
        requires { (w.known ≤ 48) × (w.entered < length self.lengths.now) }
        ensures { result ≡
            min (w.known + get_or self.entry.lengths.now w.entered 0)
            (length (syndromes_of self.entry.syndromes.now)) }
    {
        let all = self.syndromes.len().min(SYNDROMES);
        all.min(w.known + self.lengths[w.entered] as usize)
    }

    // Whether the run is over.
    fn over(self, w: Walk) -> bool
        ensures { result ≡ leb w.known w.progress.iterations
            && leb (length self.entry.lengths.now) w.entered }
    {
        w.known <= w.progress.iterations as usize && self.lengths.len() <= w.entered
    }

    // The next event: an iteration while there are syndromes for one, then the next round's entry.
    fn next(self, w: Walk) -> Walk
        requires { Going (length self.lengths.now) w }
        ensures { (form : Form) (n : ℕ)
            → Arrived form (syndromes_of self.entry.syndromes.now) self.entry.lengths.now n w
            → Arrived form (syndromes_of self.entry.syndromes.now) self.entry.lengths.now (n + 1) result }
    {
        let p = w.progress;
        let r = p.iterations;
        if (r as usize) < w.known {
            let mut swapped = p.swapped;
            swapped[r as usize] = p.solver.swaps(r, w.syndromes);
            return Walk {
                progress: Progress {
                    solver: p.solver.iterate(r, w.syndromes),
                    iterations: r + 1,
                    swapped,
                },
                ..w
            };
        }
        let more = self.reach(w);
        let s = self.first(more);
        Walk {
            progress: Progress {
                solver: p.solver.enter(r, s),
                ..p
            },
            syndromes: s,
            known: more,
            entered: w.entered + 1,
        }
    }
}

// The first `events` entries and iterations of the run over the rounds that are lent: `lengths` cuts the syndromes into
// rounds. Syndromes after the 48th are not looked at, and a round takes what is left. A run that is over stays at its
// end.
pub fn run(form: Form, syndromes: &[u8], lengths: &[u8], events: usize) -> Progress
    ensures { Ran form (rounds_of syndromes.now lengths.now) events result }
{
    let rounds = Rounds { syndromes, lengths };
    let mut w = Walk {
        progress: Progress {
            solver: Solver::start(form),
            iterations: 0,
            swapped: [false; SYNDROMES],
        },
        syndromes: [Gf::ZERO; SYNDROMES],
        known: 0,
        entered: 0,
    };
    for _ in 0..events {
        if rounds.over(w) {
            return w.progress;
        }
        w = rounds.next(w);
    }
    w.progress
}

// The length of the run after its first `events` entries and iterations: the linear complexity of the syndromes that it
// has iterated over by then, and after all of its events that of all its syndromes, in whatever form and rounds: FORMAT
// 8.18.
pub fn linear_complexity(form: Form, syndromes: &[u8], lengths: &[u8], events: usize) -> u16
    ensures complexity_after { ComplexityAfter (rounds_of syndromes.now lengths.now) events result }
    ensures whole { length (Events (rounds_of syndromes.now lengths.now)) ≤ events
        → Complexity (rounds_of syndromes.now lengths.now) result }
{
    let end = run(form, syndromes, lengths, events);
    end.solver.length()
}
