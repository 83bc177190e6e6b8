// The lookahead form of the key-equation solver, FORMAT 8.6 to 8.9: Algorithm 2 of the nested-solver paper. Scalars are
// held for the next iteration.
ghost use Rattle.std.specs.Prelude.{◌+◌, ◌≡◌, true};
ghost use Rattle.field.specs.Field.{val, ◌⊕◌, ◌⊙◌};
ghost use Rattle.series.specs.Series.{K, ◌⊞◌, ◌⊠◌};
ghost use Rattle.series.specs.Shift.{cut};
ghost use Rattle.polynomial.specs.Polynomial.{poly, row};
ghost use Rattle.key_equation.specs.Length.{k_of};
ghost use Rattle.key_equation.specs.Lookahead.{swap as Swap, hold as Hold};
ghost use Rattle.key_equation.specs.Lookahead.{swapping, next_Λ, next_Δ, next_δS};
ghost use Rattle.solver.specs.declared.Form.TheVariants as Form;
ghost use Rattle.solver.specs.LookaheadView.{lookahead, clip_lookahead};
ghost use Rattle.solver.specs.LookaheadStep.{stepped};

use crate::state::State;
use crate::swap::{next_length, swaps};
use field::Gf;
use polynomial::syndromes::coefficient;
use polynomial::{COEFFICIENTS, SYNDROMES, product};

// The state of the lookahead form: Λ, B, γ, the length L and the sums Δ and Θ; then what is held for iteration r, S
// being the syndromes so far and δ, θ the constant terms of Δ and Θ: gamma_s is γ S_(r+1), delta_s is δ S_(r+1),
// theta_s is θ S_(r+2), g1 is S_(r+1) S_(r+3), g2 is S_(r+2) S_(r+3), h1 is γ S_(r+2), h2 is γ S_(r+1) S_(r+2). After r
// iterations k is r - 2L.
#[derive(Clone, Copy)]
pub struct Lookahead {
    pub locator: [Gf; COEFFICIENTS],
    pub auxiliary: [Gf; COEFFICIENTS],
    pub gamma: Gf,
    pub length: u16,
    pub delta: [Gf; COEFFICIENTS],
    pub theta: [Gf; COEFFICIENTS],
    pub gamma_s: Gf,
    pub delta_s: Gf,
    pub theta_s: Gf,
    pub g1: Gf,
    pub g2: Gf,
    pub h1: Gf,
    pub h2: Gf,
}

// The sum of products a b + c d.
fn two_products(a: Gf, b: Gf, c: Gf, d: Gf) -> Gf
    ensures { val result ≡ val a ⊙ val b ⊕ val c ⊙ val d }
{
    product(a, b).sum(product(c, d))
}

// The polynomial f + a g.
fn add_multiple(f: [Gf; COEFFICIENTS], a: Gf, g: [Gf; COEFFICIENTS]) -> [Gf; COEFFICIENTS]
    ensures { poly result ≡ poly f ⊞ K (val a) ⊠ poly g }
{
    polynomial::sum(f, polynomial::scale(a, g))
}

impl Lookahead {
    // The next Λ. Lines 1 to 3, which make it and the next Δ and δ_S, do not look at k.
    fn next_locator(self) -> [Gf; COEFFICIENTS]
        ensures { poly result ≡ cut 49 (next_Λ (lookahead 0 self)) }
    {
        let zb = polynomial::shift::times_z(self.auxiliary);
        polynomial::combine(self.gamma, self.locator, self.delta[0], zb)
    }

    // The next Δ.
    fn next_delta(self) -> [Gf; COEFFICIENTS]
        ensures { poly result ≡ cut 49 (next_Δ (lookahead 0 self)) }
    {
        let over = polynomial::shift::over_z(self.delta);
        let zb = polynomial::shift::times_z(self.auxiliary);
        let left = polynomial::combine(self.gamma, over, self.gamma_s, self.locator);
        let right = polynomial::combine(self.delta[0], self.theta, self.delta_s, zb);
        polynomial::sum(left, right)
    }

    // The next δ_S.
    fn next_delta_s(self) -> Gf
        ensures { val result ≡ next_δS (lookahead 0 self) }
    {
        let left = two_products(self.h1, self.delta[1], self.h2, self.locator[0]);
        left.sum(product(self.delta[0], self.theta_s))
    }

    // Lines 1 to 3 and what a swap and a hold hold alike, with the next γ. B, L, Θ and θ_S are still to go on.
    fn step(self, r: u8, s: [Gf; SYNDROMES], gamma: Gf) -> Lookahead
        ensures { lookahead (r + 1) result ≡
            stepped r (row s) (lookahead r self) (poly self.auxiliary) (val gamma) (k_of (r + 1) self.length)
            (poly self.theta) (val self.theta_s) }
    {
        let at = r as usize;
        let s2 = coefficient(s, at + 2);
        let s3 = coefficient(s, at + 3);
        let s4 = coefficient(s, at + 4);
        Lookahead {
            locator: self.next_locator(),
            gamma,
            delta: self.next_delta(),
            gamma_s: product(gamma, s2),
            delta_s: self.next_delta_s(),
            g1: product(s2, s4),
            g2: product(s3, s4),
            h1: product(gamma, s3),
            h2: product(gamma, self.g2),
            ..self
        }
    }

    // Lines 5 to 10: B becomes Λ and γ becomes δ.
    fn swap(self, r: u8, s: [Gf; SYNDROMES]) -> Lookahead
        requires { swapping r (row s) (lookahead r self) ≡ true }
        ensures { lookahead (r + 1) result ≡ clip_lookahead (Swap r (row s) (lookahead r self)) }
    {
        let at = r as usize;
        let s1 = coefficient(s, at + 1);
        let s3 = coefficient(s, at + 3);
        let over = polynomial::shift::over_z(self.delta);
        Lookahead {
            auxiliary: self.locator,
            length: next_length(self.length, r),
            theta: add_multiple(over, s1, self.locator),
            theta_s: two_products(s3, self.delta[1], self.g1, self.locator[0]),
            ..self.step(r, s, self.delta[0])
        }
    }

    // Lines 11 to 16: B becomes zB.
    fn hold(self, r: u8, s: [Gf; SYNDROMES]) -> Lookahead
        ensures { lookahead (r + 1) result ≡ clip_lookahead (Hold r (row s) (lookahead r self)) }
    {
        let at = r as usize;
        let s1 = coefficient(s, at + 1);
        let s3 = coefficient(s, at + 3);
        let zb = polynomial::shift::times_z(self.auxiliary);
        Lookahead {
            auxiliary: zb,
            theta: add_multiple(self.theta, s1, zb),
            theta_s: product(s3, self.theta[0]),
            ..self.step(r, s, self.gamma)
        }
    }
}

impl State for Lookahead {
    ghost form = { Form.Lookahead };

    ghost view = { lookahead };

    fn start() -> Lookahead {
        let one = polynomial::constant(Gf::ONE);
        let none = polynomial::zero();
        Lookahead {
            locator: one,
            auxiliary: one,
            gamma: Gf::ONE,
            length: 0,
            delta: none,
            theta: none,
            gamma_s: Gf::ZERO,
            delta_s: Gf::ZERO,
            theta_s: Gf::ZERO,
            g1: Gf::ZERO,
            g2: Gf::ZERO,
            h1: Gf::ZERO,
            h2: Gf::ZERO,
        }
    }

    fn enter(self, u: u8, s: [Gf; SYNDROMES]) -> Lookahead {
        let at = u as usize;
        let s0 = coefficient(s, at);
        let s1 = coefficient(s, at + 1);
        let s2 = coefficient(s, at + 2);
        let s3 = coefficient(s, at + 3);
        let g_s = product(self.gamma, s1);
        Lookahead {
            delta: add_multiple(self.delta, s0, self.locator),
            theta: add_multiple(self.theta, s0, self.auxiliary),
            gamma_s: g_s,
            delta_s: two_products(s1, self.delta[0], product(s1, s0), self.locator[0]),
            theta_s: two_products(s2, self.theta[0], product(s2, s0), self.auxiliary[0]),
            g1: product(s1, s3),
            g2: product(s2, s3),
            h1: product(self.gamma, s2),
            h2: product(g_s, s2),
            ..self
        }
    }

    fn swaps(self, r: u8, _s: [Gf; SYNDROMES]) -> bool {
        swaps(self.delta[0], self.length, r)
    }

    fn iterate(self, r: u8, s: [Gf; SYNDROMES]) -> Lookahead {
        if self.swaps(r, s) {
            self.swap(r, s)
        } else {
            self.hold(r, s)
        }
    }
}
