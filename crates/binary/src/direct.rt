// The key equation of a binary word of capability 3 solved by direct formulas, with no iteration: what three iterations
// of the parallel inversionless Berlekamp algorithm leave, the whole state. What the promises speak of stands in
// specs/Algorithm.antt and specs/Tables.antt; that both are the same in specs/Equal.antt.
ghost use Rattle.std.specs.Prelude.{◌≡◌, cond};
ghost use Rattle.field.specs.Field.{F, 𝟎, ◌⊕◌, ◌⊙◌, val};
ghost use Rattle.binary.specs.Algorithm.{iterated};
ghost use Rattle.binary.specs.Tables.{branch as Branch, v000 as V000, v001 as V001, v010 as V010};
ghost use Rattle.binary.specs.Tables.{v011 as V011, v101 as V101, v110 as V110, direct};
ghost use Rattle.binary.specs.Solved.{state_of, Shared};

use crate::received::Syndromes;
use field::Gf;
use kernel::product;

// The coefficients of a polynomial: no degree is above 5.
pub const TERMS: usize = 6;

// The state after three iterations. B is held times x, and its length plus one, as before the first iteration they are
// x^-1 and -1. Delta and theta have even powers only.
#[derive(Clone, Copy)]
pub struct Solved {
    pub locator: [Gf; TERMS],
    pub auxiliary: [Gf; TERMS],
    pub delta: [Gf; TERMS],
    pub theta: [Gf; TERMS],
    pub gamma: Gf,
    pub length: u8,
    pub auxiliary_length: u8,
}

// What several formulas share: the syndromes, S_0², S_0³ and S_0⁶, S_2², Δ1 = S_2 + S_0³, S_0 S_4, and φ.
#[derive(Clone, Copy)]
struct Terms {
    s0: Gf,
    s2: Gf,
    s4: Gf,
    square: Gf,
    cube: Gf,
    sixth: Gf,
    square2: Gf,
    d1: Gf,
    both: Gf,
    phi: Gf,
}

// The coefficient of a term that is not there.
const O: Gf = Gf::ZERO;

// a + x y
fn plus_product(a: Gf, x: Gf, y: Gf) -> Gf
    ensures { val result ≡ val a ⊕ val x ⊙ val y }
{
    a.sum(product(x, y))
}

// What the formulas share, found once.
fn prepare(s: Syndromes) -> Terms
    ensures { Shared (val s.s0) (val s.s2) (val s.s4) result }
{
    let Syndromes { s0, s2, s4 } = s;
    let square = product(s0, s0);
    let cube = product(s0, square);
    let sixth = product(cube, cube);
    let square2 = product(s2, s2);
    let both = product(s0, s4);
    let part = plus_product(both.sum(sixth), s2, cube);
    Terms {
        s0,
        s2,
        s4,
        square,
        cube,
        sixth,
        square2,
        d1: s2.sum(cube),
        both,
        phi: part.sum(square2),
    }
}

// The three zero tests as the number of a branch: its bits say in which iterations the algorithm takes its second
// branch. With S_0 zero they are 101 or 110; 100 and 111 never occur. A number and no enum: the customer matches on it
// (docs/DECISIONS.md, 73).
fn number(first: bool, second: bool, third: bool) -> u8
    ensures { result ≡ cond first (cond second 6 5) (cond second (cond third 3 2) (cond third 1 0)) }
{
    match (first, second, third) {
        (false, false, false) => 0,
        (false, false, true) => 1,
        (false, true, false) => 2,
        (false, true, true) => 3,
        (true, false, _) => 5,
        (true, true, _) => 6,
    }
}

// The number of the branch vector.
fn branch(t: Terms) -> u8
    ensures { (a b c : F) → Shared a b c t → result ≡ Branch a b c }
{
    number(t.s0.is_zero(), t.d1.is_zero(), t.phi.is_zero())
}

fn v000(t: Terms) -> Solved
    ensures { (a b c : F) → Shared a b c t → state_of result ≡ V000 a b c }
{
    let e = plus_product(t.both, t.cube, t.s2);
    let squares = product(t.square, t.square2);
    let x = plus_product(product(squares, t.d1), e, t.s4);
    Solved {
        locator: [
            product(t.s0, t.d1),
            product(t.square, t.d1),
            e,
            product(t.s0, t.phi),
            O,
            O,
        ],
        auxiliary: [O, t.s0, t.square, t.d1, O, O],
        delta: [
            plus_product(x, product(t.square, t.cube), t.phi),
            O,
            product(product(t.s0, t.square2), t.phi),
            O,
            O,
            O,
        ],
        theta: [plus_product(squares, t.s4, t.d1), O, O, O, O, O],
        gamma: t.phi,
        length: 3,
        auxiliary_length: 3,
    }
}

fn v001(t: Terms) -> Solved
    ensures { (a b c : F) → Shared a b c t → state_of result ≡ V001 a b c }
{
    let h = t.sixth.sum(t.square2);
    let x = product(product(t.square, t.square2), t.d1);
    Solved {
        locator: [product(t.s0, t.d1), product(t.square, t.d1), h, O, O, O],
        auxiliary: [O, O, O, Gf::ONE, t.s0, O],
        delta: [plus_product(x, h, t.s4), O, O, O, O, O],
        theta: [
            plus_product(t.s4, t.square, t.cube),
            O,
            product(t.s0, t.square2),
            O,
            O,
            O,
        ],
        gamma: t.d1,
        length: 2,
        auxiliary_length: 4,
    }
}

fn v010(t: Terms) -> Solved
    ensures { (a b c : F) → Shared a b c t → state_of result ≡ V010 a b c }
{
    let q = t.both.sum(t.sixth);
    Solved {
        locator: [t.square, t.cube, O, O, q, O],
        auxiliary: [O, t.s0, t.square, O, O, O],
        delta: [
            plus_product(product(t.cube, t.square2), q, t.s2),
            O,
            product(q, t.s4),
            O,
            O,
            O,
        ],
        theta: [product(t.square, t.square2), O, O, O, O, O],
        gamma: q,
        length: 4,
        auxiliary_length: 2,
    }
}

fn v011(t: Terms) -> Solved
    ensures { (a b c : F) → Shared a b c t → state_of result ≡ V011 a b c }
{
    let x = product(t.cube, t.square2);
    Solved {
        locator: [t.square, t.cube, O, O, O, O],
        auxiliary: [O, O, O, O, O, Gf::ONE],
        delta: [x, O, O, O, O, O],
        theta: [t.s2, O, t.s4, O, O, O],
        gamma: t.s0,
        length: 1,
        auxiliary_length: 5,
    }
}

fn v101(t: Terms) -> Solved
    ensures { (a b c : F) → Shared a b c t → state_of result ≡ V101 a b c }
{
    let x = product(t.s4, t.s4);
    let y = product(t.square2, t.square2);
    Solved {
        locator: [t.s2, O, t.s4, t.square2, O, O],
        auxiliary: [O, O, O, Gf::ONE, O, O],
        delta: [x, O, y, O, O, O],
        theta: [t.s4, O, O, O, O, O],
        gamma: t.s2,
        length: 3,
        auxiliary_length: 3,
    }
}

fn v110(t: Terms) -> Solved
    ensures { (a b c : F) → Shared a b c t → state_of result ≡ V110 a b c }
{
    Solved {
        locator: [Gf::ONE, O, O, O, O, t.s4],
        auxiliary: [O, Gf::ONE, O, O, O, O],
        delta: [O; TERMS],
        theta: [O; TERMS],
        gamma: t.s4,
        length: 5,
        auxiliary_length: 1,
    }
}

// The state for these syndromes of even index, the others being squares: S_1 = S_0², S_3 = S_0⁴, S_5 = S_2². For three
// zeros, which nobody has to solve, the formulas of branch 110 are taken too.
pub fn solve(s: Syndromes) -> Solved
    ensures formulas { state_of result ≡ direct (val s.s0) (val s.s2) (val s.s4) }
    ensures iterations { ¬ ((val s.s0 ≡ 𝟎) × (val s.s2 ≡ 𝟎) × (val s.s4 ≡ 𝟎))
        → state_of result ≡ iterated (val s.s0) (val s.s2) (val s.s4) }
{
    let t = prepare(s);
    match branch(t) {
        0 => v000(t),
        1 => v001(t),
        2 => v010(t),
        3 => v011(t),
        5 => v101(t),
        _ => v110(t),
    }
}
