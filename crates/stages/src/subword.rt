// One stage of one subword, in a block that is lent: it is settled already, clean or attempted. What the promises speak
// of stands in specs/SubwordDefinition.antt.
ghost use Rattle.std.specs.Prelude.{◌+◌, ◌≤◌, ◌<◌, ◌≡◌, true, ◌&&◌, eqb, length};
ghost use Rattle.std.specs.Int.Bits.{bit_xor};
ghost use Rattle.std.specs.Int.Count.{ones};
ghost use Rattle.field.specs.Field.{byte, val};
ghost use Rattle.series.specs.Series.{Series, K, ◌⊞◌, ◌⊠◌};
ghost use Rattle.series.specs.Shift.{zpow, cut};
ghost use Rattle.series.specs.Array.{bytes, values};
ghost use Rattle.series.specs.Decide.{holds};
ghost use Rattle.polynomial.specs.Polynomial.{row as Row};
ghost use Rattle.polynomial.specs.SyndromesZero.{zero?};
ghost use Rattle.block.specs.Parts.{Fits};
ghost use Rattle.settle.specs.Answer.{answer};
ghost use Rattle.staged_decoding.specs.Definition.{verdict_at, bit_weight, add};
ghost use Rattle.stages.specs.Report.{verdict_of};
ghost use Rattle.stages.specs.View.{pending?, Told};
ghost use Rattle.stages.specs.SubwordDefinition.{Offered, Took, Goes};

use crate::attempt::Attempted;
use crate::report::{Line, Verdict};
use field::Gf;
use polynomial::SYNDROMES;
use profile::{POSITIONS, Profile};
use solver::{Form, Solver};

// The symbols of a part of a pattern; five parts are a whole one.
const PART: usize = 51;

// A subword between two stages: pending, not settled yet, with its solver; or settled, with its line.
#[derive(Clone, Copy)]
pub enum State {
    Pending(Solver),
    Settled(Line),
}

impl State {
    pub fn is_pending(&self) -> bool
        ensures { result ≡ pending? self.now }
    {
        matches!(self, State::Pending(_))
    }

    // Its line in the report: clean while it is pending.
    pub fn line(self) -> Line
        ensures { Told self result }
    {
        match self {
            State::Pending(solver) => crate::report::clean(solver),
            State::Settled(line) => line,
        }
    }
}

// Settled at stage r by so many changes.
fn verdict_of(r: u8, count: u8) -> Verdict
    ensures { verdict_of result ≡ verdict_at r count }
{
    if r == 0 && count == 0 {
        Verdict::Clean
    } else {
        Verdict::Corrected(count, r)
    }
}

// In how many bits a received symbol and what it is corrected to differ.
fn wrong_bits(received: u8, corrected: u8) -> u16
    ensures { result ≡ ones (bit_xor received corrected) }
{
    (received ^ corrected).count_ones() as u16
}

// A change is added to the symbol at k: how many bits that changes.
fn change(k: usize, e: Gf, block: &mut [u8]) -> u16
    requires { k < length block.old }
    ensures block { bytes block.new ≡ bytes block.old ⊞ K (val e) ⊠ zpow k }
    ensures bits { result ≡ ones (byte (val e)) }
{
    let received = block[k];
    let corrected = received ^ e.0;
    block[k] = corrected;
    wrong_bits(received, corrected)
}

// The part of a pattern from `from` to `to` - 1 is added to the subword that begins at a: how many bits that changes.
fn correct_part(a: usize, from: usize, to: usize, pattern: [Gf; POSITIONS], block: &mut [u8]) -> u16
    requires { (from ≤ to) × (to ≤ 255) × (a + to ≤ length block.old) }
    ensures block { bytes block.new ⊞ zpow a ⊠ cut from (values pattern)
        ≡ bytes block.old ⊞ zpow a ⊠ cut to (values pattern) }
    ensures bits { result + bit_weight from (values pattern) ≡ bit_weight to (values pattern) }
{
    if kernel::is_zero(&pattern[from..to]) {
        return 0;
    }
    let mut bits = 0;
    for q in from..to {
        let e = pattern[q];
        if !e.is_zero() {
            bits += change(a + q, e, block);
        }
    }
    bits
}

// The pattern is added to subword i: how many bits that changes. It goes by parts, since most parts of a pattern with
// few changes have none.
fn correct(p: Profile, i: usize, pattern: [Gf; POSITIONS], block: &mut [u8]) -> u16
    requires { Fits p block.old × (i < p.subwords) }
    ensures block { bytes block.new ≡
        add p.length i (cut p.length (values pattern)) (bytes block.old) }
    ensures bits { result ≡ bit_weight p.length (values pattern) }
{
    let n = p.length as usize;
    let a = i * n;
    let whole = n / PART;
    let mut bits = 0;
    for k in 0..whole {
        bits += correct_part(a, PART * k, PART * (k + 1), pattern, block);
    }
    bits + correct_part(a, PART * whole, n, pattern, block)
}

// What an attempt has brought is taken: the block is corrected if the subword is settled.
fn take(p: Profile, r: u8, i: usize, a: Attempted, block: &mut [u8]) -> State
    requires { Fits p block.old × (i < p.subwords) }
    ensures { (f : Form) (S : Series) → Offered p f r S a → Took p f r i S (answer p.length a.settled)
        (bytes block.old) (bytes block.new) result }
{
    let Some(found) = a.settled else {
        return State::Pending(a.solver);
    };
    let bits = correct(p, i, found.pattern, block);
    State::Settled(Line {
        verdict: verdict_of(r, found.count),
        bits,
        solver: a.solver,
    })
}

// Whether a subword is clean, which shows at stage 0.
fn is_clean(r: u8, row: [Gf; SYNDROMES]) -> bool
    ensures { result ≡ (eqb r 0 && holds (zero? row)) }
{
    r == 0 && polynomial::syndromes::is_zero(row)
}

// Stage r of subword i. A clean subword runs no solver; one that is settled stays as it is.
pub fn stage(
    p: Profile,
    r: u8,
    i: usize,
    state: State,
    row: [Gf; SYNDROMES],
    block: &mut [u8],
) -> State
    requires { Fits p block.old × (i < p.subwords) × (r ≤ p.nested) }
    ensures { Goes p r i (Row row) state block.old block.new result }
{
    let State::Pending(solver) = state else {
        return state;
    };
    if is_clean(r, row) {
        return State::Settled(crate::report::clean(solver));
    }
    take(p, r, i, crate::attempt::attempt(p, r, solver, row), block)
}
