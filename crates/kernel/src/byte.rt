// Single bytes, and their product with no table: for loops, where many are taken at a time.
ghost use Rattle.std.specs.Prelude.{◌/◌, ◌<◌, ◌≡◌};
ghost use Rattle.field.specs.Field.{α, ◌⊕◌, ◌⊙◌, of, val};

use field::Gf;

// A byte as an index.
pub fn index(x: u8) -> usize
    ensures { (result ≡ x) × (result < 256) }
{
    usize::from(x)
}

// Twice a byte: the bit that falls out comes back as z^8 modulo 285, which is 29.
pub fn twice(x: u8) -> u8
    ensures { of result ≡ α ⊙ of x }
{
    (x << 1) ^ ((x >> 7) * 29)
}

// p, with a added if the top bit of n is 1.
fn pick(p: u8, a: u8, n: u8) -> u8
    ensures { of result ≡ of p ⊕ of (n / 128) ⊙ of a }
{
    p ^ ((n >> 7) * a)
}

// The product: the doubles of a, one after the other, of which the bits of b pick. No table is read and no branch is
// taken; in a loop in which a stays, its doubles are found once.
pub fn multiply(a: u8, b: u8) -> u8
    ensures { of result ≡ of a ⊙ of b }
{
    let a1 = twice(a);
    let a2 = twice(a1);
    let a3 = twice(a2);
    let a4 = twice(a3);
    let a5 = twice(a4);
    let a6 = twice(a5);
    let a7 = twice(a6);
    let p7 = pick(0, a7, b);
    let p6 = pick(p7, a6, b << 1);
    let p5 = pick(p6, a5, b << 2);
    let p4 = pick(p5, a4, b << 3);
    let p3 = pick(p4, a3, b << 4);
    let p2 = pick(p3, a2, b << 5);
    let p1 = pick(p2, a1, b << 6);
    pick(p1, a, b << 7)
}

// The product of two symbols, with no table.
pub fn product(x: Gf, y: Gf) -> Gf
    ensures { val result ≡ val x ⊙ val y }
{
    Gf(multiply(x.0, y.0))
}
