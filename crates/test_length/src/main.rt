// Prints the length of a solver after 0, 1, .. of the events of a run, in each form, a line for each run. `stdout` has
// the same numbers from an independent program, which finds each by linear algebra and knows no solver.
//
// On standard input: the number of lists of rounds, two bytes, the high byte first; then for each list a byte with the
// number of rounds, one with the number of syndromes, the rounds' lengths, the syndromes.
#![tactic(auto)]

use solver::Form;
use std::io::{Stdin, Stdout};
use test_support::{input, output, print, state};

// One list of rounds in one form, at so many points: before its first event, and after each.
fn one(stdout: Stdout, form: Form, syndromes: &[u8], lengths: &[u8], points: usize) {
    let mut line = print::Line::new();
    line.put(state::name(form).as_bytes());
    for e in 0..points {
        let l = solver::rounds::linear_complexity(form, syndromes, lengths, e);
        print::number(&mut line, usize::from(l));
    }
    line.put(b"\n");
    output::write(stdout, &line);
}

// The next list of rounds, in each form.
fn list(stdin: Stdin, stdout: Stdout) {
    let rounds = usize::from(input::byte(stdin));
    let total = usize::from(input::byte(stdin));
    let lengths = input::bytes(stdin, rounds);
    let syndromes = input::bytes(stdin, total);
    let points = rounds + total + 1;
    for form in [Form::Plain, Form::Lookahead, Form::Scaled] {
        one(
            stdout,
            form,
            syndromes.as_bytes(),
            lengths.as_bytes(),
            points,
        );
    }
}

fn main(rt: HostRuntime) {
    let stdin = rt.stdin();
    let stdout = rt.stdout();
    for _ in 0..input::number(stdin) {
        list(stdin, stdout);
    }
}
