// Hot loops over lent bytes and lent rows of products; the functions of single bytes are passed on. Products by one
// value can also be taken from half-byte tables (`halves`).
// The promises are equations of series: `bytes l` is the list l as the series of its entries, then zeros.
#![tactic(auto)]

mod byte;
pub mod halves;
mod multiplier;
mod row;
mod symbol;
mod word;

pub use crate::byte::{index, multiply, product, twice};
pub use multiplier::{Multiplier, One, add_scaled, scale, value};
pub use row::{LentRow, Row, product_row};
pub use symbol::{Symbol, is_zero};
pub use word::{add, add_multiple, copy};
