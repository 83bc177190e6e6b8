// Runs lists of rounds in each form and prints where each run ends, a line each: form, iterations, k and length; the
// swaps; Λ, B and γ; where the form has them, Δ, Θ and the held scalars; then a number that depends on every state that
// the run was in, from its start on. `stdout` holds the same lines from an independent model.
//
// A list of rounds on standard input is a byte with the number of rounds, one with the number of syndromes, the rounds'
// lengths, the syndromes.
#![tactic(auto)]

use field::Gf;
use kernel::Symbol;
use polynomial::{COEFFICIENTS, SYNDROMES};
use solver::rounds::Progress;
use solver::{Form, Solver};
use std::io::Stdout;
use test_support::{input, output, print, state};

// The number h with one more value: it depends on all values, in their order.
fn mix(h: u64, x: u8) -> u64 {
    (h % 1000003 * 257 + u64::from(x) + 1) % 1000003
}

fn mix_all<S: Symbol>(h: u64, list: &[S]) -> u64 {
    list.iter().fold(h, |h, x| mix(h, x.byte()))
}

// Two polynomials and scalars.
fn mix_part(h: u64, f: [Gf; COEFFICIENTS], g: [Gf; COEFFICIENTS], scalars: &[u8]) -> u64 {
    mix_all(mix_all(mix_all(h, &f), &g), scalars)
}

// Λ, B and γ.
fn mix_key(h: u64, s: Solver) -> u64 {
    match s {
        Solver::Plain(p) => mix_part(h, p.locator, p.auxiliary, &[p.gamma.0]),
        Solver::Lookahead(p) => mix_part(h, p.locator, p.auxiliary, &[p.gamma.0]),
        Solver::Scaled(p) => mix_part(h, p.locator, p.auxiliary, &[p.gamma.0]),
    }
}

// Δ, Θ and the held scalars; nothing in the plain form, which has none.
fn mix_held(h: u64, s: Solver) -> u64 {
    match s {
        Solver::Plain(_) => h,
        Solver::Lookahead(p) => mix_part(h, p.delta, p.theta, &state::lookahead_scalars(p)),
        Solver::Scaled(p) => mix_part(h, p.delta, p.theta, &state::scaled_scalars(p)),
    }
}

// The number h with the state of the form that runs.
fn mix_state(h: u64, s: Solver) -> u64 {
    mix_held(mix_key(mix(h, (s.length() % 256) as u8), s), s)
}

// What a run was in before, with where it is now.
fn note(h: u64, run: Progress) -> u64 {
    let now = mix_state(mix(h, run.iterations), run.solver);
    run.swapped.iter().fold(now, |h, b| mix(h, u8::from(*b)))
}

// The iterations that were swaps, or a dash.
fn swaps(line: &mut print::Line, swapped: [bool; SYNDROMES]) {
    if !swapped.contains(&true) {
        line.put(b" -");
    }
    for (i, b) in swapped.iter().enumerate() {
        if *b {
            print::number(line, i);
        }
    }
}

// Where a run ends, and the number of all that it was in.
fn show(stdout: Stdout, run: Progress, h: u64) {
    let s = run.solver;
    let r = usize::from(run.iterations);
    let mut line = print::Line::new();
    line.put(state::name(s.form()).as_bytes());
    print::number(&mut line, r);
    state::place(&mut line, r, s.length());
    line.put(b" |");
    swaps(&mut line, run.swapped);
    state::polynomials(&mut line, s);
    state::held(&mut line, s);
    line.put(b" |");
    print::number(&mut line, h as usize);
    line.put(b"\n");
    output::write(stdout, &line);
}

// One list of rounds in one form, stopped after 0, 1, .. of its events.
fn one(stdout: Stdout, form: Form, syndromes: &[u8], lengths: &[u8]) {
    let events = lengths.len() + syndromes.len();
    let mut h = 0;
    for e in 0..events {
        h = note(h, solver::rounds::run(form, syndromes, lengths, e));
    }
    let end = solver::rounds::run(form, syndromes, lengths, events);
    show(stdout, end, note(h, end));
}

// The lists of rounds, one after the other, each in each form, as far as they are whole.
fn all(stdout: Stdout, lists: &[u8]) {
    let mut left = lists;
    while let [rounds, total, rest @ ..] = left {
        let Some((lengths, rest)) = rest.split_at_checked(usize::from(*rounds)) else {
            return;
        };
        let Some((syndromes, rest)) = rest.split_at_checked(usize::from(*total)) else {
            return;
        };
        for form in [Form::Plain, Form::Lookahead, Form::Scaled] {
            one(stdout, form, syndromes, lengths);
        }
        left = rest;
    }
}

fn main(rt: HostRuntime) {
    let mut space = [0; input::MOST];
    let n = input::fill(rt.stdin(), &mut space);
    all(rt.stdout(), &space[..n]);
}
