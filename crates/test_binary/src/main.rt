// Decodes binary subwords, and solves for syndromes by the direct formulas, as the cases of standard input say, and
// prints a line for each:
//
//     word SIZE, output size | its number | the output, which held 170 everywhere before
//     solve S_0 S_2 S_4 | Λ | x·B | Δ | Θ | γ, L_Λ, L_B + 1
//
// `stdout` holds the same lines from an independent model, which iterates where we have formulas.
//
// Standard input is the number of cases and the cases. A case is a byte, 0 for a word and 1 for syndromes; for a word
// its size, the word and the size of the output; for syndromes three bytes. These numbers have two bytes, the high byte
// first.
#![tactic(auto)]

use binary::Syndromes;
use binary::direct::{Solved, TERMS};
use field::Gf;
use std::io::{Stdin, Stdout};
use test_support::{input, output, print};

fn word(stdin: Stdin, line: &mut print::Line) {
    let n = input::number(stdin);
    let subword = input::bytes(stdin, n);
    let size = input::number(stdin);
    let mut space = [output::BEFORE; input::MOST];
    let out = &mut space[..size];
    let number: u8 = match binary::decode_binary(subword.as_bytes(), out) {
        Ok(()) => 0,
        Err(q) => q.into(),
    };
    line.put(b"word");
    print::number(line, n);
    print::number(line, size);
    line.put(b" |");
    print::number(line, usize::from(number));
    line.put(b" |");
    print::numbers(line, out);
}

// The six coefficients of a polynomial.
fn polynomial(line: &mut print::Line, f: [Gf; TERMS]) {
    line.put(b" |");
    for x in &f {
        print::number(line, usize::from(x.0));
    }
}

fn state(line: &mut print::Line, s: Solved) {
    polynomial(line, s.locator);
    polynomial(line, s.auxiliary);
    polynomial(line, s.delta);
    polynomial(line, s.theta);
    line.put(b" |");
    print::number(line, usize::from(s.gamma.0));
    print::number(line, usize::from(s.length));
    print::number(line, usize::from(s.auxiliary_length));
}

fn solve(stdin: Stdin, line: &mut print::Line) {
    let a = input::byte(stdin);
    let b = input::byte(stdin);
    let c = input::byte(stdin);
    line.put(b"solve");
    print::numbers(line, &[a, b, c]);
    let s = Syndromes {
        s0: Gf(a),
        s2: Gf(b),
        s4: Gf(c),
    };
    state(line, binary::direct::solve(s));
}

fn case(stdin: Stdin, stdout: Stdout) {
    let mut line = print::Line::new();
    match input::byte(stdin) {
        0 => word(stdin, &mut line),
        _ => solve(stdin, &mut line),
    }
    line.put(b"\n");
    output::write(stdout, &line);
}

fn main(rt: HostRuntime) {
    let stdin = rt.stdin();
    let stdout = rt.stdout();
    for _ in 0..input::number(stdin) {
        case(stdin, stdout);
    }
}
