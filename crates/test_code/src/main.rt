// Asks about profiles, writes blocks, fetches subwords and reads the data of blocks, as the cases of standard input
// say, and prints a line for each:
//
//     profile BYTES | its number, data size (0 if refused)
//     write PROFILE | data size, output size | its number | the output, which held 170 everywhere before
//     fetch PROFILE | block size, subword | its number | the part
//     data PROFILE | block size, output size | its number | the output, which held 170 everywhere before
//
// `stdout` holds the same lines from an independent model.
//
// Standard input is the number of cases and the cases. A case is a byte, 0 for a profile, 1 for a write, 2 for a fetch
// and 3 for data; a byte with the size of the profile, and the profile; for a write the size of the data, the data and
// the size of the output; for a fetch the size of the block, the block and the number of the subword; for data the size
// of the block, the block and the size of the output. These numbers have two bytes, the high byte first.
#![tactic(auto)]

use listing::text::Text;
use profile::Refusal;
use solver::Form;
use std::io::{Stdin, Stdout};
use test_support::{input, output, print};

// A line, with room for an output.
type Line = Text<65536>;

// What a case asks.
#[derive(Clone, Copy)]
enum Kind {
    Profile,
    Write,
    Fetch,
    Data,
}

impl From<u8> for Kind {
    fn from(byte: u8) -> Kind {
        match byte {
            0 => Kind::Profile,
            1 => Kind::Write,
            2 => Kind::Fetch,
            _ => Kind::Data,
        }
    }
}

impl Kind {
    fn name(self) -> &'static str {
        match self {
            Kind::Profile => "profile",
            Kind::Write => "write",
            Kind::Fetch => "fetch",
            Kind::Data => "data",
        }
    }
}

fn answer(line: &mut Line, a: Result<(), Refusal>) {
    line.put(b" |");
    print::number(line, usize::from(profile::number(a)));
    line.put(b" |");
}

fn parse(line: &mut Line, profile: &[u8]) {
    let (number, size) = match profile::questions::parse(profile) {
        Ok(p) => (0, p.data_size()),
        Err(q) => (u8::from(q), 0),
    };
    print::number(line, usize::from(number));
    print::number(line, size);
}

fn write(stdin: Stdin, line: &mut Line, profile: &[u8]) {
    let n = input::number(stdin);
    let data = input::bytes(stdin, n);
    let size = input::number(stdin);
    print::number(line, n);
    print::number(line, size);
    let mut space = [output::BEFORE; input::MOST];
    let out = &mut space[..size];
    answer(line, encoder::encode(profile, data.as_bytes(), out));
    print::numbers(line, out);
}

fn fetch(stdin: Stdin, line: &mut Line, profile: &[u8]) {
    let n = input::number(stdin);
    let space = input::bytes(stdin, n);
    let i = input::number(stdin);
    print::number(line, n);
    print::number(line, i);
    let block = space.as_bytes();
    answer(line, profile::fetch::answer(profile, block, i));
    print::numbers(line, profile::fetch::part(profile, block, i));
}

fn extract(stdin: Stdin, line: &mut Line, profile: &[u8]) {
    let n = input::number(stdin);
    let block = input::bytes(stdin, n);
    let size = input::number(stdin);
    print::number(line, n);
    print::number(line, size);
    let mut space = [output::BEFORE; input::MOST];
    let out = &mut space[..size];
    answer(
        line,
        decoder::extract(profile, block.as_bytes(), out, Form::Plain).answer,
    );
    print::numbers(line, out);
}

fn one(stdin: Stdin, stdout: Stdout) {
    let kind = Kind::from(input::byte(stdin));
    let n = usize::from(input::byte(stdin));
    let space = input::bytes(stdin, n);
    let profile = space.as_bytes();
    let mut line = Line::new();
    line.put(kind.name().as_bytes());
    print::numbers(&mut line, profile);
    line.put(b" |");
    match kind {
        Kind::Profile => parse(&mut line, profile),
        Kind::Write => write(stdin, &mut line, profile),
        Kind::Fetch => fetch(stdin, &mut line, profile),
        Kind::Data => extract(stdin, &mut line, profile),
    }
    line.put(b"\n");
    output::write(stdout, &line);
}

fn main(rt: HostRuntime) {
    let stdin = rt.stdin();
    let stdout = rt.stdout();
    for _ in 0..input::number(stdin) {
        one(stdin, stdout);
    }
}
