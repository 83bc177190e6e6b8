// Prints what the field computes, a line of numbers each: zero, one and α, the logarithms of the bytes, the powers of α
// below 255, the inverses of the bytes from 1 on, and for every byte its products with all bytes. Then these products
// twice more, by half-byte tables of the first factor: one by one, and by tables that are lent, where loops over words
// and polynomials take turns. The file `stdout` holds the same numbers from an independent program.
#![tactic(auto)]

use field::{Exponent, Gf};
use kernel::Multiplier;
use kernel::halves::Halves;
use std::io;

// The first lines of the products: by logarithms, by half bytes, by tables that are lent. Then the end.
const BY_LOGARITHMS: usize = 4;

const BY_HALVES: usize = 260;

const LENT: usize = 516;

const LINES: usize = 772;

fn byte(n: usize) -> u8 {
    (n % 256) as u8
}

// The product as a symbol of a word that is multiplied.
fn by_word(h: &Halves, x: u8) -> u8 {
    let mut word = [x; 2];
    kernel::scale(h, &mut word);
    word[1]
}

// The product as a symbol of a word to which a multiple is added.
fn by_sum(h: &Halves, x: u8) -> u8 {
    let mut to = [0u8; 2];
    kernel::add_scaled(h, &[x; 2], &mut to);
    to[1]
}

// The product as the value of x z at c.
fn by_value(h: &Halves, x: u8) -> u8 {
    kernel::value(h, &[0, x]).0
}

// The product as a coefficient of a polynomial.
fn by_polynomial(c: Gf, x: u8) -> u8 {
    polynomial::halves::scale(c, [Gf(x); polynomial::COEFFICIENTS])[1].0
}

// The product by tables that are lent: the loops take turns.
fn by_lent(turn: usize, c: Gf, x: u8) -> u8 {
    let h = Halves::split(c);
    match turn % 4 {
        0 => by_word(&h, x),
        1 => by_sum(&h, x),
        2 => by_value(&h, x),
        _ => by_polynomial(c, x),
    }
}

// Number i of a line before the products.
fn heading(line: usize, i: usize) -> u8 {
    match line {
        0 => Gf::named()[i % 3].0,
        1 => byte(Gf(byte(i)).log().0),
        2 => Exponent(i).power().0,
        _ => Gf(byte(i % 255 + 1)).inverse().0,
    }
}

// Number i of a line.
fn cell(line: usize, i: usize) -> u8 {
    if line < BY_LOGARITHMS {
        return heading(line, i);
    }
    let c = Gf(byte(line - BY_LOGARITHMS));
    let x = byte(i);
    if line < BY_HALVES {
        return c.product(Gf(x)).0;
    }
    if line < LENT {
        return Halves::split(c).times(x);
    }
    by_lent(line % 4 + i % 4, c, x)
}

fn print(rt: HostRuntime, n: u8, after: &str) -> io::Result<()> {
    print!(rt; "{n}{after}")
}

// The last index of a line.
fn end(line: usize) -> usize {
    match line {
        0 => 2,
        2 | 3 => 254,
        _ => 255,
    }
}

fn print_line(rt: HostRuntime, line: usize) -> io::Result<()> {
    let last = end(line);
    for i in 0..last {
        print(rt, cell(line, i), " ")?;
    }
    print(rt, cell(line, last), "\n")
}

fn main(rt: HostRuntime) -> io::Result<()> {
    for line in 0..LINES {
        print_line(rt, line)?;
    }
    Ok(())
}
