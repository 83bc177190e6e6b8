// The locations of one, two or three changes from their locator, with no walk over the positions: a quadratic or a
// cubic equation is brought to a form with one parameter, whose root a table has. What the promises speak of stands in
// specs/Locations.antt. Where the locator is no product of such factors, anything may come out: whoever asks puts it to
// the test.
ghost use Rattle.std.specs.Prelude.{◌≤◌, ◌<◌, ◌≡◌};
ghost use Rattle.field.specs.Field.{pow, val};
ghost use Rattle.series.specs.Array.{values};
ghost use Rattle.binary.specs.Locations.{quadratic, cubic, RootOf, OneOfTwo, OneOfThree};
ghost use Rattle.binary.specs.Locations.{Two, Three, Finds};

use crate::direct::TERMS;
use field::{Exponent, Gf};
use kernel::{index, product};

// Three locations; zero is none.
#[derive(Clone, Copy)]
pub struct Locations(pub Gf, pub Gf, pub Gf);

impl Locations {
    // Of no change.
    pub const NONE: Locations = Locations(Gf::ZERO, Gf::ZERO, Gf::ZERO);
}

// At k: the least w with w² + w = k, or 0 if there is none.
const HALF: [u8; 256] = *b"\x00\xd6\xe8\x3e\xea\x3c\x02\xd4\x2c\xfa\xc4\x12\xc6\x10\x2e\xf8\
    \xee\x38\x06\xd0\x04\xd2\xec\x3a\xc2\x14\x2a\xfc\x28\xfe\xc0\x16\
    \x00\x00\x00\x00\x00\x00\x00\x00\x00\x00\x00\x00\x00\x00\x00\x00\
    \x00\x00\x00\x00\x00\x00\x00\x00\x00\x00\x00\x00\x00\x00\x00\x00\
    \x24\xf2\xcc\x1a\xce\x18\x26\xf0\x08\xde\xe0\x36\xe2\x34\x0a\xdc\
    \xca\x1c\x22\xf4\x20\xf6\xc8\x1e\xe6\x30\x0e\xd8\x0c\xda\xe4\x32\
    \x00\x00\x00\x00\x00\x00\x00\x00\x00\x00\x00\x00\x00\x00\x00\x00\
    \x00\x00\x00\x00\x00\x00\x00\x00\x00\x00\x00\x00\x00\x00\x00\x00\
    \x50\x86\xb8\x6e\xba\x6c\x52\x84\x7c\xaa\x94\x42\x96\x40\x7e\xa8\
    \xbe\x68\x56\x80\x54\x82\xbc\x6a\x92\x44\x7a\xac\x78\xae\x90\x46\
    \x00\x00\x00\x00\x00\x00\x00\x00\x00\x00\x00\x00\x00\x00\x00\x00\
    \x00\x00\x00\x00\x00\x00\x00\x00\x00\x00\x00\x00\x00\x00\x00\x00\
    \x74\xa2\x9c\x4a\x9e\x48\x76\xa0\x58\x8e\xb0\x66\xb2\x64\x5a\x8c\
    \x9a\x4c\x72\xa4\x70\xa6\x98\x4e\xb6\x60\x5e\x88\x5c\x8a\xb4\x62\
    \x00\x00\x00\x00\x00\x00\x00\x00\x00\x00\x00\x00\x00\x00\x00\x00\
    \x00\x00\x00\x00\x00\x00\x00\x00\x00\x00\x00\x00\x00\x00\x00\x00";

// At k: the least w with w³ + w = k, or 0 if there is none.
const THIRD: [u8; 256] = *b"\x00\x00\x00\x89\x00\x52\x20\x5e\x33\x68\x02\x00\x03\xb4\x00\x00\
    \x00\xd4\x00\x00\x74\x84\x31\xae\x00\x00\x00\x00\xd3\x00\x00\x79\
    \x95\x3b\xec\x1e\xab\x00\xa4\x00\x6e\x00\x00\x0f\xe1\x00\x5b\xb9\
    \x00\x55\x08\x86\xed\x00\x19\x00\x00\xb6\x00\x7b\xf1\x00\x00\x7f\
    \x6c\x3e\x3f\x00\x04\x00\xef\x29\xe5\x00\xbf\x00\x00\xc6\x44\x30\
    \x05\x6a\x21\x00\x00\x00\xee\x32\x00\x00\x00\x28\x00\x00\x9a\x00\
    \x77\x00\x59\x00\x22\x00\x61\x00\x67\x00\x8d\x64\x07\x40\x8a\x51\
    \xfa\x0e\x00\x18\x1f\x2c\x43\xb2\x00\xfb\x09\xf0\x00\x2d\x06\x56\
    \x00\x00\xe2\x2b\x4a\x00\x9c\x2e\x00\x2f\xaf\xea\x00\xbb\x38\xeb\
    \x00\x00\x1d\x00\x00\x34\x00\x00\x0a\x2a\xe7\x00\xca\x00\x00\x39\
    \x00\x27\x00\x1a\xf3\x54\x13\x00\x00\x70\x58\x6f\x00\x12\xdb\x17\
    \x16\x7e\x87\x8b\x48\x24\xce\x0d\x00\xb1\x00\xb3\x00\x36\x9f\x60\
    \x00\x00\xe6\x1c\xfe\x6d\x6b\x00\x00\x3c\xfc\x00\x3d\xe9\xe3\xe8\
    \x11\xfd\x00\xb5\x75\x00\x0b\x45\x35\xff\xbe\x4d\x00\x10\x00\x00\
    \x1b\xb7\xc3\x82\x00\xf2\xc9\x26\xcd\x15\x8f\x0c\xd1\x57\x46\x50\
    \x14\xc4\xcf\xda\x00\x25\x37\x00\x00\x73\xc2\xc5\xa9\x42\xd9\xd0";

// A w with w² + w = k, if there is one.
fn half(k: Gf) -> Gf
    ensures { RootOf quadratic (val k) (val result) }
{
    Gf(HALF[index(k.0)])
}

// A w with w³ + w = k, if there is one.
fn third(k: Gf) -> Gf
    ensures { RootOf cubic (val k) (val result) }
{
    Gf(THIRD[index(k.0)])
}

// The power e of x.
fn power(x: Gf, e: usize) -> Gf
    requires { (0 < e) × (e ≤ 254) }
    ensures { val result ≡ pow (val x) e }
{
    if x.is_zero() {
        return x;
    }
    Exponent(x.log().0 * e).power()
}

// One of two different values, given their sum and their product; the other is the sum and it. With w the value over
// the sum, w² + w is the product over the square of the sum.
fn one_of_two(sum: Gf, both: Gf) -> Gf
    ensures { OneOfTwo (val sum) (val both) (val result) }
{
    let k = product(both, power(sum, 253));
    product(sum, half(k))
}

// One of three values whose sum is zero, given the sum of their products in pairs and their product: a root of
// u³ + pairs u + all. With u = s w, s² = pairs, this is w³ + w = all / s³; where pairs is zero, u is a cube root.
fn one_of_three(pairs: Gf, all: Gf) -> Gf
    ensures { OneOfThree (val pairs) (val all) (val result) }
{
    if pairs.is_zero() {
        return power(all, 57);
    }
    let k = product(all, power(pairs, 126));
    product(power(pairs, 128), third(k))
}

// Two locations, given their sum and their product.
fn two(sum: Gf, both: Gf) -> Locations
    ensures { Two (val sum) (val both) (val result.0) (val result.1) (val result.2) }
{
    let x = one_of_two(sum, both);
    Locations(x, x.sum(sum), Gf::ZERO)
}

// Three locations, given their elementary symmetric polynomials. Each of them, with `sum` added, is one of three values
// whose sum is zero.
fn three(sum: Gf, pairs: Gf, all: Gf) -> Locations
    ensures { Three (val sum) (val pairs) (val all) (val result.0) (val result.1) (val result.2) }
{
    let a = product(sum, sum).sum(pairs);
    let b = product(sum, pairs).sum(all);
    let u = one_of_three(a, b);
    let v = one_of_two(u, product(b, u.inverse()));
    Locations(sum.sum(u), sum.sum(v), sum.sum(u.sum(v)))
}

// The locations of so many changes, if the locator is theirs.
pub fn of_locator(locator: [Gf; TERMS], length: u8) -> Locations
    ensures { Finds (values locator) length (val result.0) (val result.1) (val result.2) }
{
    let inverse = locator[0].inverse();
    let sum = product(locator[1], inverse);
    if length == 1 {
        return Locations(sum, Gf::ZERO, Gf::ZERO);
    }
    let pairs = product(locator[2], inverse);
    if length == 2 {
        return two(sum, pairs);
    }
    three(sum, pairs, product(locator[3], inverse))
}
