// Answers and reports as numbers, and a buffer that a report fills. What the promises speak of stands in
// specs/NumbersDefinition.antt.
ghost use Rattle.std.specs.Prelude.{◌+◌, ◌≤◌, ◌≡◌, ◌++◌, length, take};
ghost use Rattle.profile.specs.Definition.{unless_refused};
ghost use Rattle.stages.specs.Report.{verdict_of, says};
ghost use Rattle.gii.specs.NumbersDefinition.{stage_of, result_number, line_numbers};
ghost use Rattle.gii.specs.NumbersDefinition.{lines_numbers, two_bytes, bits_numbers, head_numbers, listed};
ghost use Rattle.gii.specs.NumbersDefinition.{filled};

use profile::{Refusal, SUBWORDS};
use stages::report::{Line, Report, Verdict};

// The numbers of a report: the last stage, the changed symbols, and three for each of eight lines; then the changed
// bits, and those of each line. Numbers of two bytes have the high byte first.
pub const REPORT: usize = 45;

// The stage that an 8 says, 0 with any other number.
fn stage_of(a: Result<(), Refusal>) -> u8
    ensures { result ≡ stage_of a }
{
    match a {
        Err(Refusal::Unsettled(stage)) => stage,
        _ => 0,
    }
}

// The number of an answer, and 256 times its stage.
pub fn result_of(a: Result<(), Refusal>) -> u16
    ensures { result ≡ result_number a }
{
    u16::from_be_bytes([stage_of(a), profile::number(a)])
}

// A line's numbers: 0 0 0 for clean, else 1, its count and its stage.
fn line_numbers(l: Line) -> [u8; 3]
    ensures { result ≡ line_numbers (verdict_of l.verdict) }
{
    match l.verdict {
        Verdict::Clean => [0, 0, 0],
        Verdict::Corrected(count, stage) => [1, count, stage],
    }
}

// Puts numbers into the list, from k on.
fn put<const N: usize>(x: [u8; N], k: usize, list: &mut [u8])
    requires { k + N ≤ length list.old }
    ensures { take (k + N) list.new ≡ take k list.old ++ x.entry }
{
    list[k..k + N].copy_from_slice(&x);
}

// Puts a number of two bytes into the list, from k on.
fn put_two(n: u16, k: usize, list: &mut [u8])
    requires { k + 2 ≤ length list.old }
    ensures { take (k + 2) list.new ≡ take k list.old ++ two_bytes n }
{
    put(n.to_be_bytes(), k, list);
}

// The numbers before the lines, and zeros.
fn head(last: u8, changed: u16) -> [u8; REPORT]
    ensures { take 3 result ≡ head_numbers last changed }
{
    let mut list = [0u8; REPORT];
    list[0] = last;
    put_two(changed, 1, &mut list);
    list
}

// Puts the lines behind these.
fn put_lines(lines: [Line; SUBWORDS], list: &mut [u8])
    requires { 27 ≤ length list.old }
    ensures { take 27 list.new ≡ take 3 list.old ++ lines_numbers 8 (says lines) }
{
    for i in 0..SUBWORDS {
        put(line_numbers(lines[i]), 3 + 3 * i, list);
    }
}

// Puts the changed bits of the lines behind those of the block. One function for both lists would be lent what is put
// of a line, its size and its place, for a loop of one call.
fn put_bits(lines: [Line; SUBWORDS], list: &mut [u8])
    requires { 45 ≤ length list.old }
    ensures { take 45 list.new ≡ take 29 list.old ++ bits_numbers 8 (says lines) }
{
    for i in 0..SUBWORDS {
        put_two(lines[i].bits, 29 + 2 * i, list);
    }
}

// All numbers of a report.
pub fn list_of(r: Report) -> [u8; REPORT]
    ensures { result ≡ listed r.last r.changed r.bits (says r.lines) }
{
    let mut list = head(r.last, r.changed);
    put_lines(r.lines, &mut list);
    put_two(r.bits, 27, &mut list);
    put_bits(r.lines, &mut list);
    list
}

// Copies as much as there is room for; bytes past that keep their value. A loop, as `kernel::copy` is.
fn fill(list: &[u8], to: &mut [u8])
    ensures { to.new ≡ filled list.now to.old }
{
    let n = list.len().min(to.len());
    for i in 0..n {
        to[i] = list[i];
    }
}

// Copies them if the answer is no refusal, which leaves every byte.
pub fn fill_if(a: Result<(), Refusal>, list: &[u8], to: &mut [u8])
    ensures { to.new ≡
        unless_refused a (filled list.now to.old) to.old }
{
    if a.is_ok() {
        fill(list, to);
    }
}
