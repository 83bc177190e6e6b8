// What the three forms of the key-equation solver share: the swap decision, the next length, and k from the length.
ghost use Rattle.std.specs.Prelude.{◌+◌, ◌≤◌, ◌≡◌};
ghost use Rattle.field.specs.Field.{val};
ghost use Rattle.key_equation.specs.Shared.{swaps as Swaps, k_swap};
ghost use Rattle.key_equation.specs.Length.{k_of};

use field::Gf;

// Whether an iteration with discrepancy d is a swap: d is not zero and k = r - 2·length is not negative.
pub fn swaps(d: Gf, length: u16, r: u8) -> bool
    ensures { result ≡ Swaps (val d) (k_of r length) }
{
    !d.is_zero() && 2 * (length as u32) <= r as u32
}

// The length after a swap at iteration r.
pub fn next_length(length: u16, r: u8) -> u16
    requires { length + length ≤ r }
    ensures { k_of (r + 1) result ≡ k_swap (k_of r length) }
{
    r as u16 + 1 - length
}

// The number k after r iterations: r - 2·length.
pub fn k(length: u16, r: u8) -> i32
    ensures { result ≡ k_of r length }
{
    r as i32 - (2 * (length as u32)) as i32
}
