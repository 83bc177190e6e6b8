// The scaled form of the key-equation solver: FORMAT 8.10 to 8.12. Four products of a scalar and a polynomial serve
// every line of an iteration.
ghost use Rattle.std.specs.Prelude.{ℕ, ◌≡◌, cond};
ghost use Rattle.field.specs.Field.{𝟏, val, is_zero};
ghost use Rattle.series.specs.Series.{◌⊞◌, ◌⊠◌, K, Z};
ghost use Rattle.series.specs.Shift.{cut};
ghost use Rattle.polynomial.specs.Polynomial.{poly, row};
ghost use Rattle.key_equation.specs.Length.{k_of};
ghost use Rattle.key_equation.specs.Scaled.{unless, ratio as Ratio, holding as Holding};
ghost use Rattle.solver.specs.declared.Form.TheVariants as Form;
ghost use Rattle.solver.specs.ScaledView.{scaled, ProductsOf, stepped};

use crate::state::State;
use crate::swap::{next_length, swaps};
use field::Gf;
use polynomial::syndromes::coefficient;
use polynomial::{COEFFICIENTS, SYNDROMES, product};

// The state of the scaled form: Λ, B, γ', the length L, Δ and Θ. After r iterations k is r - 2L, and the five scalars
// of FORMAT 8.10 are held for iteration r.
#[derive(Clone, Copy)]
pub struct Scaled {
    pub locator: [Gf; COEFFICIENTS],
    pub auxiliary: [Gf; COEFFICIENTS],
    pub gamma: Gf,
    pub length: u16,
    pub delta: [Gf; COEFFICIENTS],
    pub theta: [Gf; COEFFICIENTS],
    pub ratio: Gf,
    pub rho: Gf,
    pub xi: Gf,
    pub rho_s: Gf,
    pub xi_s: Gf,
}

// The products of an iteration: ρ_S Λ, ξ_S zB, ρ Δ/z and ξ Θ.
#[derive(Clone, Copy)]
struct Products {
    locator: [Gf; COEFFICIENTS],
    auxiliary: [Gf; COEFFICIENTS],
    delta: [Gf; COEFFICIENTS],
    theta: [Gf; COEFFICIENTS],
}

// The symbol x, or 1 where d is 0.
pub fn one_if_zero(d: Gf, x: Gf) -> Gf
    ensures { val result ≡ cond (is_zero (val d)) 𝟏 (val x) }
{
    if d.is_zero() { Gf::ONE } else { x }
}

// The polynomial t + f, or t where x is 0.
fn sum_unless(x: Gf, t: [Gf; COEFFICIENTS], f: [Gf; COEFFICIENTS]) -> [Gf; COEFFICIENTS]
    ensures { poly result ≡ poly t ⊞ unless (val x) (poly f) }
{
    if x.is_zero() {
        t
    } else {
        polynomial::sum(t, f)
    }
}

// The polynomial a zf, where the top coefficient of f is lost.
fn scale_shifted(a: Gf, f: [Gf; COEFFICIENTS]) -> [Gf; COEFFICIENTS]
    ensures { poly result ≡ cut 49 (K (val a) ⊠ (Z ⊠ poly f)) }
{
    polynomial::scale(a, polynomial::shift::times_z(f))
}

// The ratio g for iteration r.
fn ratio(r: u16, s: [Gf; SYNDROMES]) -> Gf
    ensures { val result ≡ Ratio r (row s) }
{
    let x = coefficient(s, r as usize);
    let y = coefficient(s, r as usize + 1);
    product(one_if_zero(y, y), one_if_zero(x, x).inverse())
}

impl Scaled {
    // The state with the scalars for iteration r.
    fn holding(self, r: u16, s: [Gf; SYNDROMES]) -> Scaled
        ensures { scaled r result ≡
            Holding r (row s) (poly self.locator) (poly self.auxiliary) (val self.gamma) (k_of r self.length)
            (poly self.delta) (poly self.theta) }
    {
        let xi = self.delta[0];
        let ratio = ratio(r, s);
        let rho = one_if_zero(xi, self.gamma);
        Scaled {
            ratio,
            rho,
            xi,
            rho_s: product(ratio, rho),
            xi_s: product(ratio, xi),
            ..self
        }
    }

    // The four products of the next iteration.
    fn products(self) -> Products
        ensures { (r : ℕ) → ProductsOf (scaled r self) (poly result.locator) (poly result.auxiliary)
            (poly result.delta) (poly result.theta) }
    {
        Products {
            locator: polynomial::scale(self.rho_s, self.locator),
            auxiliary: scale_shifted(self.xi_s, self.auxiliary),
            delta: polynomial::scale(self.rho, polynomial::shift::over_z(self.delta)),
            theta: polynomial::scale(self.xi, self.theta),
        }
    }

    // The state for iteration r, from the products of the one before, where B, γ' and the length are the next ones: the
    // next B is added to Θ unless S_r = 0.
    fn step(self, r: u16, s: [Gf; SYNDROMES], p: Products) -> Scaled
        ensures { scaled r result ≡
            stepped r (row s) (poly p.locator) (poly p.auxiliary) (poly p.delta) (poly p.theta)
            (poly self.auxiliary) (poly self.theta) (val self.gamma) (k_of r self.length) }
    {
        let x = coefficient(s, r as usize);
        let locator = polynomial::sum(p.locator, p.auxiliary);
        let sums = polynomial::sum(p.delta, p.theta);
        let next = Scaled {
            locator,
            delta: sum_unless(x, sums, locator),
            theta: sum_unless(x, self.theta, self.auxiliary),
            ..self
        };
        next.holding(r, s)
    }
}

impl State for Scaled {
    ghost form = { Form.Scaled };

    ghost view = { scaled };

    fn start() -> Scaled {
        let one = polynomial::constant(Gf::ONE);
        let none = polynomial::zero();
        Scaled {
            locator: one,
            auxiliary: one,
            gamma: Gf::ONE,
            length: 0,
            delta: none,
            theta: none,
            ratio: Gf::ONE,
            rho: Gf::ONE,
            xi: Gf::ZERO,
            rho_s: Gf::ONE,
            xi_s: Gf::ZERO,
        }
    }

    // Δ and Θ take Λ and B as they were.
    fn enter(self, u: u8, s: [Gf; SYNDROMES]) -> Scaled {
        let x = coefficient(s, u as usize);
        let y = one_if_zero(x, x);
        let next = Scaled {
            locator: polynomial::scale(y, self.locator),
            auxiliary: polynomial::scale(y, self.auxiliary),
            delta: polynomial::sum(self.delta, polynomial::scale(x, self.locator)),
            theta: polynomial::sum(self.theta, polynomial::scale(x, self.auxiliary)),
            ..self
        };
        next.holding(u as u16, s)
    }

    fn swaps(self, r: u8, _s: [Gf; SYNDROMES]) -> bool {
        swaps(self.delta[0], self.length, r)
    }

    fn iterate(self, r: u8, s: [Gf; SYNDROMES]) -> Scaled {
        let d = self.delta[0];
        let p = self.products();
        // Locals: the borrow checker does not cover array fields that go straight into such a literal.
        let next = if swaps(d, self.length, r) {
            let auxiliary = p.locator;
            let theta = p.delta;
            Scaled {
                auxiliary,
                gamma: product(self.rho, d),
                length: next_length(self.length, r),
                theta,
                ..self
            }
        } else if d.is_zero() {
            Scaled {
                auxiliary: scale_shifted(self.ratio, self.auxiliary),
                ..self
            }
        } else {
            let auxiliary = p.auxiliary;
            let theta = p.theta;
            Scaled {
                auxiliary,
                gamma: product(self.xi, self.gamma),
                theta,
                ..self
            }
        };
        next.step(r as u16 + 1, s, p)
    }
}
