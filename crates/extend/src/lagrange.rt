// The unsettled subwords of a block: how many they are, and Lagrange's polynomials of them. What the promises speak of
// stands in specs/LagrangeDefinition.antt.
ghost use Rattle.std.specs.Prelude.{◌≤◌, ◌<◌, ◌≡◌, cond};
ghost use Rattle.field.specs.Field.{𝟏, α, ◌⊕◌, ◌⊙◌, pow, val};
ghost use Rattle.staged_decoding.specs.Definition.{count};
ghost use Rattle.extend.specs.LagrangeDefinition.{flag, others, product as Product, lagrange as Lagrange};

use field::{Exponent, Gf};
use profile::{Profile, SUBWORDS};

// How many of the subwords are unsettled.
pub fn unsettled(p: Profile, pending: [bool; SUBWORDS]) -> usize
    requires { p.subwords ≤ 8 }
    ensures { result ≡ count p.subwords (flag pending) }
{
    pending[..p.subwords as usize]
        .iter()
        .filter(|b| **b)
        .count()
}

// b times x + α^j, if subword j is unsettled and not subword i; else b, with no product.
fn times(b: Gf, pending: [bool; SUBWORDS], i: usize, j: usize, x: Gf) -> Gf
    requires { j < 8 }
    ensures { val result ≡ val b ⊙ cond (others (flag pending) i j) (val x ⊕ pow α j) 𝟏 }
{
    if j == i {
        return b;
    }
    if pending[j] {
        return b.product(x.sum(Exponent(j).power()));
    }
    b
}

// The product of α^k + α^j over the unsettled subwords j other than i.
fn product(p: Profile, pending: [bool; SUBWORDS], i: usize, k: usize) -> Gf
    requires { p.subwords ≤ 8 }
    ensures { val result ≡ Product p.subwords (others (flag pending) i) k }
{
    let m = p.subwords as usize;
    let x = Exponent(k).power();
    let mut b = Gf::ONE;
    for j in 0..m {
        b = times(b, pending, i, j, x);
    }
    b
}

// Lagrange's polynomial of subword i among the unsettled ones, at α^k.
pub fn lagrange(p: Profile, pending: [bool; SUBWORDS], i: usize, k: usize) -> Gf
    requires { p.subwords ≤ 8 }
    ensures { val result ≡ Lagrange p.subwords (flag pending) i k }
{
    let d = product(p, pending, i, i).inverse();
    product(p, pending, i, k).product(d)
}
