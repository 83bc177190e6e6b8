// Prints the lists of cards, after a line `card of SIZE` for each. `stdout` holds the same lists from an independent
// model: stored cards, the sample card (FORMAT 10.11) cut at every byte and followed by one byte too many, and a card
// of hundreds of blocks, whole, cut in its last block and followed by one byte too many. tools/make_vectors makes both
// files.
//
// Standard input is the number of cards and the cards, each after its size. These numbers have two bytes, the high
// byte first.
#![tactic(auto)]

ghost use Rattle.std.specs.Prelude.{◌<◌, ◌≡◌, false};
ghost use Rattle.card.specs.SectionDefinition.{over, left};

use card::section::Section;
use listing::{LINE, Line};
use std::io::{Stdin, Stdout};
use test_support::{input, output, print};

// Prints the line of a section, and tells what comes next.
fn step(stdout: Stdout, s: Section, bytes: &[u8]) -> Section
    ensures { over s ≡ false → left result < left s }
{
    let mut line = [0; LINE];
    let t = card::judge(s, bytes, &mut line);
    let mut text = Line::new();
    text.put(&line[..t.size]);
    output::write(stdout, &text);
    t.next
}

fn list(stdout: Stdout, card: &[u8]) {
    let mut s = Section::Size;
    let mut rest = card;
    while !s.is_over() {
        let n = s.wanted().min(rest.len());
        s = step(stdout, s, &rest[..n]);
        rest = &rest[n..];
    }
}

fn title(stdout: Stdout, n: usize) {
    let mut line = Line::new();
    line.put(b"card of");
    print::number(&mut line, n);
    line.put(b"\n");
    output::write(stdout, &line);
}

fn one(stdin: Stdin, stdout: Stdout) {
    let n = input::number(stdin);
    let card = input::bytes(stdin, n);
    title(stdout, n);
    list(stdout, card.as_bytes());
}

fn main(rt: HostRuntime) {
    let stdin = rt.stdin();
    let stdout = rt.stdout();
    for _ in 0..input::number(stdin) {
        one(stdin, stdout);
    }
}
