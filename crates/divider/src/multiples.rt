// Tables of multiples: 256 rows of 48 symbols, row f holding f times row 1, in 1536 words. Above degree 32 a row has
// six words. Up to 32 the two lowest of them are zero and are not stored: a row has four words, and the last 512 words
// of the table are no row's. No promise speaks of these.
// What the promises speak of stands in specs/Multiples.antt.
ghost use Rattle.std.specs.Prelude.{ℕ, List, ◌+◌, ◌-◌, ◌≤◌, ◌<◌, ◌≡◌, length};
ghost use Rattle.field.specs.Field.{𝟎, α};
ghost use Rattle.series.specs.Series.{Series, K, ◌⊠◌};
ghost use Rattle.series.specs.Array.{bytes};
ghost use Rattle.divider.specs.Packed.{packed};
ghost use Rattle.divider.specs.Multiples.{wide, narrow, rows, Spare, lower, Multiples};
ghost use Rattle.divider.specs.MultiplesBuilding.{Two, Written, Added};

use crate::packed::Packed;
use polynomial::SYNDROMES;

// How a table keeps its rows.
pub trait Width {
    // Row f of a table.
    ghost row_at: { List ℕ → ℕ → Series };

    // How many symbols of a row are zero and not stored, from the first on.
    ghost spare: { ℕ };

    fn row(t: &[u64], f: usize) -> Packed
        requires { (f < 256) × (1536 ≤ length t.now) }
        ensures { (packed result ≡ row_at t.now f) × Spare spare result };

    fn write(t: &mut [u64], f: usize, r: Packed)
        requires { (f < 256) × (1536 ≤ length t.old) × Spare spare r }
        ensures { Written row_at f (packed r) t.old t.new };
}

// Four words from 4f on, above zeros.
pub struct Narrow;

impl Width for Narrow {
    ghost row_at = { narrow };

    ghost spare = { 16 };

    fn row(t: &[u64], f: usize) -> Packed {
        let i = f * 4;
        Packed(0, 0, t[i], t[i + 1], t[i + 2], t[i + 3])
    }

    fn write(t: &mut [u64], f: usize, r: Packed) {
        let i = f * 4;
        two(t, i, r.2, r.3);
        two(t, i + 2, r.4, r.5);
    }
}

// Six words from 6f on.
pub struct Wide;

impl Width for Wide {
    ghost row_at = { wide };

    ghost spare = { 0 };

    fn row(t: &[u64], f: usize) -> Packed {
        let i = f * 6;
        Packed(t[i], t[i + 1], t[i + 2], t[i + 3], t[i + 4], t[i + 5])
    }

    fn write(t: &mut [u64], f: usize, r: Packed) {
        let i = f * 6;
        two(t, i, r.0, r.1);
        two(t, i + 2, r.2, r.3);
        two(t, i + 4, r.4, r.5);
    }
}

// Stores two words, one after the other.
fn two(t: &mut [u64], i: usize, a: u64, b: u64)
    requires { i + 2 ≤ length t.old }
    ensures { Two i a b t.old t.new }
{
    t[i] = a;
    t[i + 1] = b;
}

// Writes rows w to 2w - 1: those below w, each with r added.
fn level<W: Width>(t: &mut [u64], w: usize, r: Packed)
    requires { (w + w ≤ 256) × (1536 ≤ length t.old) × Spare W.spare r }
    ensures { Added W.row_at w w (packed r) t.old t.new }
{
    for i in 0..w {
        let m = W::row(t, i);
        W::write(t, w + i, crate::packed::sum(m, r));
    }
}

// The list with each symbol doubled.
fn doubled(list: [u8; SYNDROMES]) -> [u8; SYNDROMES]
    ensures { bytes result ≡ K α ⊠ bytes list }
{
    let mut out = [0u8; SYNDROMES];
    for i in 0..SYNDROMES {
        out[i] = kernel::twice(list[i]);
    }
    out
}

// The table of the list's 48 symbols. The product is linear, so eight levels make it with no product.
fn build<W: Width>(list: [u8; SYNDROMES], t: &mut [u64])
    requires { (1536 ≤ length t.old) × ((i : _) → i < W.spare → bytes list i ≡ 𝟎) }
    ensures { Multiples W.row_at t.new × (lower W.row_at t.new ≡ bytes list) }
{
    W::write(t, 0, Packed(0, 0, 0, 0, 0, 0));
    let mut top = list;
    let mut w: usize = 1;
    // The width doubles, which no range does.
    while w < 256 {
        level::<W>(t, w, crate::packed::pack(top));
        // The borrow checker lets no call's result be laid straight into an array.
        let next = doubled(top);
        top = next;
        w = w + w;
    }
}

// The table of the list's 48 symbols, the last k of them not zero, for degree k.
pub fn multiples(list: [u8; SYNDROMES], k: usize, t: &mut [u64])
    requires { (1536 ≤ length t.old) × ((i : _) → i < 48 - k → bytes list i ≡ 𝟎) }
    ensures { Multiples (rows k) t.new × (lower (rows k) t.new ≡ bytes list) }
{
    if k <= 32 {
        build::<Narrow>(list, t);
    } else {
        build::<Wide>(list, t);
    }
}
