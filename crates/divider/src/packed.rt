// Forty-eight symbols in six words, the first symbol lowest in the first word.
// What the promises speak of stands in specs/Packed.antt.
ghost use Rattle.std.specs.Prelude.{◌+◌, ◌≤◌, ◌<◌, ◌≡◌, length};
ghost use Rattle.field.specs.Field.{◌⊕◌, of};
ghost use Rattle.series.specs.Series.{K, Z, ◌⊞◌, ◌⊠◌};
ghost use Rattle.series.specs.Shift.{zpow, drop, cut};
ghost use Rattle.series.specs.Array.{bytes};
ghost use Rattle.divider.specs.Packed.{digits, packed, tops};

use polynomial::SYNDROMES;

// Six words of eight symbols each.
#[derive(Clone, Copy)]
pub struct Packed(pub u64, pub u64, pub u64, pub u64, pub u64, pub u64);

// The word of the eight bytes from `at` on, taken from the last one down.
fn word(list: &[u8], at: usize) -> u64
    requires { at + 8 ≤ length list.now }
    ensures { digits result ≡ cut 8 (drop at (bytes list.now)) }
{
    let mut w = 0u64;
    for i in (0..8).rev() {
        w = (w << 8) ^ (list[at + i] as u64);
    }
    w
}

// Packs 48 symbols, each word by itself.
pub fn pack(list: [u8; SYNDROMES]) -> Packed
    ensures { packed result ≡ bytes list }
{
    Packed(
        word(&list, 0),
        word(&list, 8),
        word(&list, 16),
        word(&list, 24),
        word(&list, 32),
        word(&list, 40),
    )
}

// Adds the eight symbols of a word to those from `at` on.
fn add_word(w: u64, at: usize, out: &mut [u8])
    requires { at + 8 ≤ length out.old }
    ensures { bytes out.new ≡ bytes out.old ⊞ zpow at ⊠ digits w }
{
    let mut v = w;
    for i in 0..8 {
        out[at + i] ^= (v % 256) as u8;
        v = v >> 8;
    }
}

// The 48 symbols of six words, each word added to zeros.
pub fn unpack(r: Packed) -> [u8; SYNDROMES]
    ensures { bytes result ≡ packed r }
{
    let mut out = [0u8; SYNDROMES];
    add_word(r.0, 0, &mut out);
    add_word(r.1, 8, &mut out);
    add_word(r.2, 16, &mut out);
    add_word(r.3, 24, &mut out);
    add_word(r.4, 32, &mut out);
    add_word(r.5, 40, &mut out);
    out
}

// The sum, word by word.
pub fn sum(a: Packed, b: Packed) -> Packed
    ensures { (packed result ≡ packed a ⊞ packed b) × (tops result ≡ tops a ⊞ tops b) }
{
    Packed(
        a.0 ^ b.0,
        a.1 ^ b.1,
        a.2 ^ b.2,
        a.3 ^ b.3,
        a.4 ^ b.4,
        a.5 ^ b.5,
    )
}

// The sum of the last symbol and another, as an index.
pub fn index(r: Packed, x: u8) -> usize
    ensures { (of result ≡ packed r 47 ⊕ of x) × (result < 256) }
{
    kernel::index(((r.5 >> 56) as u8) ^ x)
}

// Moves the symbols one place up, with what falls out of each word carried into the next and the last symbol dropped;
// then adds m.
pub fn shifted(r: Packed, m: Packed) -> Packed
    ensures { packed result ≡ Z ⊠ packed r ⊞ K (packed r 47) ⊠ zpow 48 ⊞ packed m }
{
    Packed(
        (r.0 << 8) ^ m.0,
        (r.1 << 8) ^ (r.0 >> 56) ^ m.1,
        (r.2 << 8) ^ (r.1 >> 56) ^ m.2,
        (r.3 << 8) ^ (r.2 >> 56) ^ m.3,
        (r.4 << 8) ^ (r.3 >> 56) ^ m.4,
        (r.5 << 8) ^ (r.4 >> 56) ^ m.5,
    )
}
