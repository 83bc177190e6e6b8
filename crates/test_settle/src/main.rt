// Settles rows of syndromes by what the solver finds in each form, as the cases of standard input say, and prints a
// line for each:
//
//     FORM | t, n, f | settled or failed, how many symbols change | position and change of each
//
// `stdout` holds the same lines from an independent model.
//
// A case on standard input is a byte with t, one with n, one with f, and 2t syndromes. The first root is α^f.
#![tactic(auto)]

ghost use Rattle.std.specs.Prelude.{◌≤◌, length};

use settle::Settled;
use solver::Form;
use std::io::Stdout;
use test_support::{input, output, print, state};

// The syndromes are one round: its entry and an iteration for each.
fn settle(form: Form, syndromes: &[u8], n: usize, t: usize, first: u8) -> Option<Settled>
    requires { (length syndromes.now ≤ 48) × (n ≤ 255) × (t ≤ 24) }
{
    let m = syndromes.len();
    let lengths = [m as u8];
    let end = solver::rounds::run(form, syndromes, &lengths, m + 1);
    let s = end.solver;
    settle::settle(
        first,
        solver::continuation::locator(s),
        s.length() as usize,
        input::row(syndromes),
        n,
        t,
    )
}

// How many symbols change, and the positions that do, each with its change.
fn settled(line: &mut print::Line, r: Settled) {
    line.put(b" | settled");
    print::number(line, usize::from(r.count));
    line.put(b" |");
    for (i, y) in r.pattern.iter().enumerate() {
        if !y.is_zero() {
            print::number(line, i);
            print::number(line, usize::from(y.0));
        }
    }
}

fn one(stdout: Stdout, form: Form, syndromes: &[u8], n: usize, t: usize, first: u8)
    requires { (length syndromes.now ≤ 48) × (n ≤ 255) × (t ≤ 24) }
{
    let mut line = print::Line::new();
    line.put(state::name(form).as_bytes());
    line.put(b" |");
    print::number(&mut line, t);
    print::number(&mut line, n);
    print::number(&mut line, usize::from(first));
    match settle(form, syndromes, n, t, first) {
        Some(r) => settled(&mut line, r),
        None => line.put(b" | failed 0 |"),
    }
    line.put(b"\n");
    output::write(stdout, &line);
}

// The cases, one after the other, each in each form, as far as they are whole.
fn all(stdout: Stdout, cases: &[u8]) {
    let mut left = cases;
    while let [t, n, first, rest @ ..] = left {
        let t = usize::from(*t);
        if t > 24 {
            return;
        }
        let Some((syndromes, rest)) = rest.split_at_checked(2 * t) else {
            return;
        };
        for form in [Form::Plain, Form::Lookahead, Form::Scaled] {
            one(stdout, form, syndromes, usize::from(*n), t, *first);
        }
        left = rest;
    }
}

fn main(rt: HostRuntime) {
    let mut space = [0; input::MOST];
    let n = input::fill(rt.stdin(), &mut space);
    all(rt.stdout(), &space[..n]);
}
