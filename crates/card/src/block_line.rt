// The line of a block: the block is read, and what the reading came to is told.
// What the promises speak of stands in specs/BlockLineDefinition.antt.
ghost use Rattle.std.specs.Prelude.{◌<◌, ◌≡◌, true, length};
ghost use Rattle.profile.specs.Valid.{Valid};
ghost use Rattle.block.specs.Parts.{Fits};
ghost use Rattle.block.specs.CodewordDefinition.{Tables};
ghost use Rattle.card.specs.BlockLineDefinition.{told as Told, block_line as BlockLine};

use crate::section::SECTION;
use listing::Line;
use profile::{Profile, Refusal};
use solver::Form;

// How many entries a table has.
pub const TABLE: usize = divider::generator::TABLE;

// An array for a block, or for any section, all zeros.
pub fn blank() -> [u8; SECTION]
    ensures { length result ≡ 2040 }
{
    [0u8; SECTION]
}

// The line of block i, from what is answered and reported.
fn told(i: u16, a: Result<(), Refusal>, last: u8, changed: u16, bits: u16) -> Line
    ensures { result ≡ Told i a last changed bits }
{
    match a {
        Ok(()) => listing::ok(i, last, changed, bits),
        Err(q) => listing::refused(i, q.into()),
    }
}

// Makes the tables for block i, unless they are kept and a block came before it.
fn prepare(p: Profile, i: u16, kept: bool, t: &mut [u64; TABLE], u: &mut [u64; TABLE])
    requires { Valid p × (kept ≡ true → 0 < i → Tables p t.old u.old) }
    ensures { Tables p t.new u.new }
{
    if !kept || i == 0 {
        block::codeword::tables(p, t, u);
    }
}

// Reads block i into the array that is lent, and answers its line. All three solvers answer alike; it is the plain one.
fn read_block(p: Profile, i: u16, t: &[u64], u: &[u64], block: &[u8], out: &mut [u8]) -> Line
    requires { Fits p block.now × (length out.old ≡ length block.now) × Tables p t.now u.now }
    ensures { result ≡ BlockLine p i block.now }
{
    let r = decoder::prepared::read(p, Form::Plain, t, u, block, out);
    let report = r.report;
    told(i, r.answer, report.last, report.changed, report.bits)
}

// The line of block i. The tables serve the blocks of a card one after the other: they are made for the first block,
// and for any block if they are not kept.
pub fn line_of(
    p: Profile,
    i: u16,
    kept: bool,
    t: &mut [u64; TABLE],
    u: &mut [u64; TABLE],
    block: &[u8],
) -> Line
    requires { Fits p block.now × (kept ≡ true → 0 < i → Tables p t.old u.old) }
    ensures says { result ≡ BlockLine p i block.now }
    ensures made { Tables p t.new u.new }
{
    let n = block.len();
    prepare(p, i, kept, t, u);
    let mut out = blank();
    read_block(p, i, t, u, block, &mut out[..n])
}
