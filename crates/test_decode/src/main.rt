// Reads blocks in each form, as the cases of standard input say. It prints a line for each case and one for each form:
//
//     case PROFILE | block size, output size
//     FORM 0 | last stage, symbols changed, bits changed | the subwords' lines | position and byte, wherever the output
//         differs from the block
//     FORM NUMBER | kept
//
// A subword's line is C (clean), or M with its count, stage and bits. An 8 is followed by its stage. `kept` says that
// the output, which held 170 everywhere before, holds it still; `lost` would say that it does not. In a case with
// states a line follows for each corrected subword, with its number and the last state of its solver.
//
// `stdout` holds the same lines from an independent model, and from an independent Reed-Solomon program (libfec) for
// the strips at the end. tools/make_vectors makes both files.
//
// Standard input is the number of cases and the cases. A case is a byte, 1 for one with states; a byte with the size of
// the profile, and the profile; the size of the block, and the block; the size of the output. These numbers have two
// bytes, the high byte first.
#![tactic(auto)]

ghost use Rattle.std.specs.Prelude.{◌≤◌};

use decoder::prepared::Reading;
use profile::{Profile, Refusal};
use solver::Form;
use stages::report::{Line, Report, Verdict};
use std::io::{Stdin, Stdout};
use test_support::{input, output, print, state};

// What a case asks.
#[derive(Clone, Copy)]
struct Case<'a> {
    profile: &'a [u8],
    block: &'a [u8],
    // the size of the output
    size: usize,
    // the last states are printed too
    states: bool,
    ghost room: { size ≤ 65536 },
}

fn refused(line: &mut print::Line, q: Refusal, out: &[u8]) {
    print::number(line, usize::from(u8::from(q)));
    if let Refusal::Unsettled(stage) = q {
        print::number(line, usize::from(stage));
    }
    let kept = out.iter().all(|x| *x == output::BEFORE);
    let trace = if kept { " | kept" } else { " | lost" };
    line.put(trace.as_bytes());
}

// C for a clean subword, else M with its count, its stage and its bits.
fn verdict(line: &mut print::Line, l: Line) {
    match l.verdict {
        Verdict::Clean => line.put(b" C"),
        Verdict::Corrected(count, stage) => {
            line.put(b" M");
            line.digits(usize::from(count));
            line.put(b"/");
            line.digits(usize::from(stage));
            line.put(b"/");
            line.digits(usize::from(l.bits));
        }
    }
}

// The last stage, how many symbols and bits were changed, the subwords, and what is other than in the block.
fn accepted(line: &mut print::Line, p: Profile, block: &[u8], out: &[u8], r: Report) {
    line.put(b" 0 |");
    print::number(line, usize::from(r.last));
    print::number(line, usize::from(r.changed));
    print::number(line, usize::from(r.bits));
    line.put(b" |");
    for l in r.lines.iter().take(usize::from(p.subwords)) {
        verdict(line, *l);
    }
    line.put(b" |");
    print::changes(line, block, out);
}

// The state of subword i, corrected at stage r: its solver went through all syndromes of that stage.
fn last_state(stdout: Stdout, p: Profile, i: usize, r: u8, l: Line) {
    let s = l.solver;
    let mut line = print::Line::new();
    line.put(b"state");
    print::number(&mut line, i);
    state::polynomials(&mut line, s);
    line.put(b" |");
    state::place(&mut line, 2 * p.capability(r) as usize, s.length());
    state::held(&mut line, s);
    line.put(b"\n");
    output::write(stdout, &line);
}

// A line for each corrected subword.
fn last_states(stdout: Stdout, profile: &[u8], r: Reading) {
    if let (Ok(()), Ok(p)) = (r.answer, profile::questions::parse(profile)) {
        for (i, l) in r
            .report
            .lines
            .iter()
            .enumerate()
            .take(usize::from(p.subwords))
        {
            if let Verdict::Corrected(_, r) = l.verdict {
                last_state(stdout, p, i, r, *l);
            }
        }
    }
}

// Reads the block in a form.
fn read(stdout: Stdout, form: Form, c: &Case) {
    let mut space = [output::BEFORE; input::MOST];
    let out = &mut space[..c.size];
    let r = decoder::decode(c.profile, c.block, out, form);
    let mut line = print::Line::new();
    line.put(state::name(form).as_bytes());
    match (r.answer, profile::questions::parse(c.profile)) {
        (Ok(()), Ok(p)) => accepted(&mut line, p, c.block, out, r.report),
        (Ok(()), Err(_)) => line.put(b" accepted with a refused profile"),
        (Err(q), _) => refused(&mut line, q, out),
    }
    line.put(b"\n");
    output::write(stdout, &line);
    if c.states {
        last_states(stdout, c.profile, r);
    }
}

fn title(stdout: Stdout, c: &Case) {
    let mut line = print::Line::new();
    line.put(b"case");
    print::numbers(&mut line, c.profile);
    line.put(b" |");
    print::number(&mut line, c.block.len());
    print::number(&mut line, c.size);
    line.put(b"\n");
    output::write(stdout, &line);
}

fn one(stdin: Stdin, stdout: Stdout) {
    let states = input::byte(stdin) == 1;
    let k = usize::from(input::byte(stdin));
    let profile = input::bytes(stdin, k);
    let n = input::number(stdin);
    let block = input::bytes(stdin, n);
    let size = input::number(stdin);
    let c = Case {
        profile: profile.as_bytes(),
        block: block.as_bytes(),
        size,
        states,
    };
    title(stdout, &c);
    for form in [Form::Plain, Form::Lookahead, Form::Scaled] {
        read(stdout, form, &c);
    }
}

fn main(rt: HostRuntime) {
    let stdin = rt.stdin();
    let stdout = rt.stdout();
    for _ in 0..input::number(stdin) {
        one(stdin, stdout);
    }
}
