// The generator polynomial of k roots, the first one being α^first, and its table: what a word is divided by.
// What the promises speak of stands in specs/GeneratorTable.antt.
ghost use Rattle.std.specs.Prelude.{◌+◌, ◌≤◌, ◌<◌, ◌≡◌, length, replicate};
ghost use Rattle.field.specs.Field.{power_table, log_table};
ghost use Rattle.series.specs.Array.{bytes};
ghost use Rattle.divider.specs.Generator.{aligned};
ghost use Rattle.divider.specs.GeneratorCoefficients.{Zech};
ghost use Rattle.divider.specs.GeneratorTable.{Table, Made};

use field::{Exponent, Gf};
use polynomial::SYNDROMES;

// How many words a table has.
pub const TABLE: usize = 1536;

// Zech's logarithm: the exponent of α^(i+1) + 1, with both tables lent.
fn zech(power: &[u8; 256], log: &[u8; 256], i: usize) -> Exponent
    requires { (power.now ≡ power_table) × (log.now ≡ log_table) × (i < 48) }
    ensures { Zech i result.0 × (result.0 < 255) }
{
    let a = Exponent(i + 1).power_in(power);
    a.sum(Gf::ONE).log_in(log)
}

// The generator of the k roots from α^first on, without its top term, which stands where entry 48 would be. From the
// top down: a coefficient is the one above it, times α^(first+j) (α^(k-j) + 1) / (α^(j+1) + 1), with j coefficients
// above that one. All are powers of α, so that exponents are added, modulo 255.
fn generator(first: usize, k: usize) -> [u8; SYNDROMES]
    requires { (first ≤ 302) × (k ≤ 48) }
    ensures { bytes result ≡ aligned first k }
{
    let power = field::powers();
    let log = field::logarithms();
    let mut g = [0u8; SYNDROMES];
    let mut e = Exponent(0);
    for j in 0..k {
        let up = zech(&power, &log, k - (j + 1));
        let down = zech(&power, &log, j);
        e = Exponent((e.0 + (first + j + 255 + up.0) - down.0) % 255);
        g[SYNDROMES - (j + 1)] = e.power_in(&power).0;
    }
    g
}

// Room for a table: zeros.
pub fn blank() -> [u64; TABLE]
    ensures { (length result ≡ 1536) × (result ≡ replicate 1536 0) }
{
    [0u64; TABLE]
}

// The table for words with the k roots from α^first on, made once for any number of words. Up to 32 roots it is the
// first 1024 words; the others are no row's, and nothing is promised of them.
pub fn table(first: usize, k: usize, t: &mut [u64])
    requires { (first ≤ 302) × (k ≤ 48) × (length t.old ≡ 1536) }
    ensures { Table first k t.new }
{
    let g = generator(first, k);
    crate::multiples::multiples(g, k, t);
}

// The table for the k roots from α^first on, made anew unless it was made for so many; made for 0 is room that holds
// none yet. The words after a table of 1024 are left open here too.
pub fn prepare(t: &mut [u64], made: usize, first: usize, k: usize)
    requires { Made first made t.old × (first ≤ 302) × (1 ≤ k) × (k ≤ 48) }
    ensures { Table first k t.new }
{
    if made == k {
        return;
    }
    table(first, k, t);
}
