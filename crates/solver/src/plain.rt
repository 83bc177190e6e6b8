// The plain form of the key-equation solver.
ghost use Rattle.std.specs.Prelude.{◌+◌, ◌≡◌};
ghost use Rattle.field.specs.Field.{val};
ghost use Rattle.series.specs.Series.{Series};
ghost use Rattle.polynomial.specs.Polynomial.{row};
ghost use Rattle.key_equation.specs.Plain.{δ, iterate as Iterate};
ghost use Rattle.solver.specs.declared.Form.TheVariants as Form;
ghost use Rattle.solver.specs.PlainView.{plain, clip_plain};

use crate::state::State;
use crate::swap::{next_length, swaps};
use field::Gf;
use polynomial::{COEFFICIENTS, SYNDROMES};

// The state of the plain form: Λ, B, γ and the length L. After r iterations k is r - 2L.
#[derive(Clone, Copy)]
pub struct Plain {
    pub locator: [Gf; COEFFICIENTS],
    pub auxiliary: [Gf; COEFFICIENTS],
    pub gamma: Gf,
    pub length: u16,
}

impl Plain {
    // The discrepancy of iteration r.
    pub fn discrepancy(self, r: u8, s: [Gf; SYNDROMES]) -> Gf
        ensures { val result ≡ δ r (row s) (plain r self) }
    {
        polynomial::syndromes::convolve(self.locator, s, r as usize)
    }

    // Takes the state through iteration r, d being its discrepancy.
    fn step(self, r: u8, d: Gf) -> Plain
        ensures { (S : Series) → val d ≡ δ r S (plain r self)
            → plain (r + 1) result ≡ clip_plain (Iterate r S (plain r self)) }
    {
        let zb = polynomial::shift::times_z(self.auxiliary);
        let locator = polynomial::combine(self.gamma, self.locator, d, zb);
        if swaps(d, self.length, r) {
            // A local: the borrow checker does not cover an array field that goes straight into this literal.
            let auxiliary = self.locator;
            return Plain {
                locator,
                auxiliary,
                gamma: d,
                length: next_length(self.length, r),
            };
        }
        Plain {
            locator,
            auxiliary: zb,
            ..self
        }
    }
}

impl State for Plain {
    ghost form = { Form.Plain };

    ghost view = { plain };

    fn start() -> Plain {
        let one = polynomial::constant(Gf::ONE);
        Plain {
            locator: one,
            auxiliary: one,
            gamma: Gf::ONE,
            length: 0,
        }
    }

    // Nothing is held for a round.
    fn enter(self, _u: u8, _s: [Gf; SYNDROMES]) -> Plain {
        self
    }

    fn swaps(self, r: u8, s: [Gf; SYNDROMES]) -> bool {
        swaps(self.discrepancy(r, s), self.length, r)
    }

    fn iterate(self, r: u8, s: [Gf; SYNDROMES]) -> Plain {
        self.step(r, self.discrepancy(r, s))
    }

    // The table is reversed once for all iterations.
    fn run(self, from: u8, to: u8, s: [Gf; SYNDROMES]) -> Plain {
        let table = polynomial::syndromes::reversed(s);
        let mut p = self;
        for r in from..to {
            let d = polynomial::syndromes::convolve_reversed(p.locator, &table, r as usize);
            p = p.step(r, d);
        }
        p
    }
}
