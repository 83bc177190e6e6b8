// Writing a block: the one codeword with the given data in its data positions. Subwords are written from the last to
// the first.
#![tactic(auto)]

mod carry;
mod fours;

ghost use Rattle.std.specs.Prelude.{suc, ◌+◌, ◌*◌, ◌≤◌, ◌≡◌, length};
ghost use Rattle.series.specs.Array.{bytes};
ghost use Rattle.profile.specs.Definition.{answer_of, first-root, checks as Checks, data_size as DataSize};
ghost use Rattle.profile.specs.FetchDefinition.{between};
ghost use Rattle.profile.specs.Questions.{writing};
ghost use Rattle.divider.specs.GeneratorTable.{Table};
ghost use Rattle.code.specs.Definition.{Encodes};
ghost use Rattle.block.specs.Parts.{Fits};
ghost use Rattle.encoder.specs.Definition.{written};
ghost use Rattle.encoder.specs.Write.{DownTo};

use profile::questions::Caller;
use profile::{Profile, Refusal};

// What is left to write: the first subwords, and their data.
#[derive(Clone, Copy)]
struct Left {
    subwords: usize,
    symbols: usize,
}

// Writes subword i once those above it are written. Its data end at `end`; where they start is handed back.
fn write_one(
    p: Profile,
    t: &[u64],
    k: usize,
    i: usize,
    input: &[u8],
    end: usize,
    out: &mut [u8],
) -> usize
    requires { DownTo p input.now out.old (suc i) end × (k ≡ Checks p i) × Table (first-root p) k t.now }
    ensures { DownTo p input.now out.new i result }
{
    let start = end - (p.length as usize - k);
    crate::carry::write_subword(p, t, i, &input[start..end], out);
    start
}

// Stretch j of `one` symbols each, from `start` on.
fn part<'a>(input: &'a [u8], start: usize, one: usize, j: usize) -> &'a [u8]
    requires { start + j * one + one ≤ length input.now }
    ensures { (length result.now ≡ one) × (result.now ≡ between (start + j * one) (start + j * one + one) input.now) }
{
    let at = start + j * one;
    &input[at..at + one]
}

// Writes subwords i to i + 3, to which nothing is carried, in the same way: their remainders are found together, in
// little more than the time of one.
fn write_four(
    p: Profile,
    t: &[u64],
    k: usize,
    i: usize,
    input: &[u8],
    end: usize,
    out: &mut [u8],
) -> usize
    requires { DownTo p input.now out.old (i + 4) end × (p.nested ≤ i) × (k ≡ Checks p p.nested)
        × Table (first-root p) k t.now }
    ensures { DownTo p input.now out.new i result }
{
    let first = p.first_root as usize;
    let n = p.length as usize;
    let one = n - k;
    let start = end - 4 * one;
    let parts = [
        part(input, start, one, 0),
        part(input, start, one, 1),
        part(input, start, one, 2),
        part(input, start, one, 3),
    ];
    let left = crate::fours::remainders(t, first, n, k, parts);
    for j in (0..4).rev() {
        crate::fours::write_known(p, k, &left[j], i + j, parts[j], out);
    }
    start
}

// Writes four subwords at a time, while so many are left to which nothing is carried.
fn write_fours(p: Profile, t: &[u64], k: usize, input: &[u8], out: &mut [u8]) -> Left
    requires { Fits p out.old × (length input.now ≡ DataSize p) × (k ≡ Checks p p.nested)
        × Table (first-root p) k t.now }
    ensures { DownTo p input.now out.new result.subwords result.symbols }
{
    let m = p.subwords as usize;
    let fours = (m - p.nested as usize) / 4;
    let mut end = input.len();
    for q in 0..fours {
        end = write_four(p, t, k, m - 4 * (q + 1), input, end, out);
    }
    Left {
        subwords: m - 4 * fours,
        symbols: end,
    }
}

// Writes the whole block. A table is made for each number of check symbols.
fn write(p: Profile, input: &[u8], out: &mut [u8])
    requires { Fits p out.old × (length input.now ≡ DataSize p) }
    ensures { Encodes p (bytes input.now) (bytes out.new) }
{
    let first = p.first_root as usize;
    let mut t = divider::generator::blank();
    let mut made = p.checks(p.nested) as usize;
    divider::generator::table(first, made, &mut t);
    let left = write_fours(p, &t, made, input, out);
    let mut end = left.symbols;
    for i in (0..left.subwords).rev() {
        let k = p.checks(i as u8) as usize;
        divider::generator::prepare(&mut t, made, first, k);
        made = k;
        end = write_one(p, &t, k, i, input, end, out);
    }
}

// A refusal leaves every byte of the output.
fn refuse(q: Refusal, out: &mut [u8]) -> Result<(), Refusal>
    ensures answer { result ≡ Err q }
    ensures same { out.new ≡ out.old }
{
    Err(q)
}

// Writes the block with the given data, or tells the first question that says no.
pub fn encode(profile: &[u8], data: &[u8], out: &mut [u8]) -> Result<(), Refusal>
    ensures answer { result ≡
        answer_of (writing profile.now (length «data».now) (length out.old)) }
    ensures block { out.new ≡
        written (writing profile.now (length «data».now) (length out.old))
        «data».now out.old }
{
    match profile::questions::admit(Caller::Encoder, profile, data.len(), out.len(), 0) {
        Ok(p) => {
            write(p, data, out);
            Ok(())
        }
        Err(refusal) => refuse(refusal, out),
    }
}
