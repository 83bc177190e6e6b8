// Prints the value of an error in two ways, by the evaluator and by the auxiliary polynomial, from the state of a
// solver in each form, as the cases of standard input say, a line for each:
//
//     FORM f k | position, the two values | position, the two values ..
//
// `stdout` has the same lines from an independent model: at a changed position of a pattern the change itself, twice.
//
// On standard input: the number of cases, two bytes, the high byte first. A case is a byte each for f, the number of
// rounds, the number of syndromes, how many events of the run happen, how many syndromes are known then, k, and the
// number of positions; then the rounds' lengths, the syndromes, the positions. The first root is α^f.
#![tactic(auto)]

use field::Gf;
use polynomial::SYNDROMES;
use solver::{Form, Solver};
use std::io::{Stdin, Stdout};
use test_support::{input, output, print, state};

#[derive(Clone, Copy)]
struct Case<'a> {
    first: u8,
    lengths: &'a [u8],
    syndromes: &'a [u8],
    // how many events of the run happen
    events: usize,
    // the syndromes that are known then, and the number of iterations that is told
    known: [Gf; SYNDROMES],
    k: u8,
    positions: &'a [u8],
}

// Both values at one position, from a state.
fn values(line: &mut print::Line, c: &Case, s: Solver, p: u8) {
    let x = error_values::by_evaluator(c.first, s, c.k, c.known, p);
    let y = error_values::by_auxiliary(c.first, s, c.k, c.known, p);
    line.put(b" |");
    print::number(line, usize::from(p));
    print::number(line, usize::from(x.0));
    print::number(line, usize::from(y.0));
}

// The values at each position, from the state after so many events of the run in one form.
fn one(stdout: Stdout, form: Form, c: &Case) {
    let end = solver::rounds::run(form, c.syndromes, c.lengths, c.events);
    let mut line = print::Line::new();
    line.put(state::name(form).as_bytes());
    print::number(&mut line, usize::from(c.first));
    print::number(&mut line, usize::from(c.k));
    for p in c.positions {
        values(&mut line, c, end.solver, *p);
    }
    line.put(b"\n");
    output::write(stdout, &line);
}

// The next case, in each form.
fn next(stdin: Stdin, stdout: Stdout) {
    let first = input::byte(stdin);
    let rounds = usize::from(input::byte(stdin));
    let total = usize::from(input::byte(stdin));
    let events = usize::from(input::byte(stdin));
    let known = usize::from(input::byte(stdin));
    let k = input::byte(stdin);
    let count = usize::from(input::byte(stdin));
    let lengths = input::bytes(stdin, rounds);
    let syndromes = input::bytes(stdin, total);
    let positions = input::bytes(stdin, count);
    let syndromes = syndromes.as_bytes();
    let c = Case {
        first,
        lengths: lengths.as_bytes(),
        syndromes,
        events,
        known: input::row(&syndromes[..known.min(syndromes.len())]),
        k,
        positions: positions.as_bytes(),
    };
    for form in [Form::Plain, Form::Lookahead, Form::Scaled] {
        one(stdout, form, &c);
    }
}

fn main(rt: HostRuntime) {
    let stdin = rt.stdin();
    let stdout = rt.stdout();
    for _ in 0..input::number(stdin) {
        next(stdin, stdout);
    }
}
