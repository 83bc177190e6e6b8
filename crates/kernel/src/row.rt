// Rows of products.
ghost use Rattle.std.specs.Prelude.{◌+◌, ◌≤◌, ◌<◌, ◌≡◌, length};
ghost use Rattle.field.specs.Field.{◌⊕◌, ◌⊙◌, of, val};
ghost use Rattle.series.specs.Series.{O, ◌⊞◌, ◌⊠◌};
ghost use Rattle.series.specs.Shift.{zpow, cut};
ghost use Rattle.series.specs.Degree.{below};
ghost use Rattle.series.specs.Array.{bytes};
ghost use Rattle.kernel.specs.Power.{Power};
ghost use Rattle.kernel.specs.ProductRow.{products, factor, ProductRow};

use crate::multiplier::Multiplier;
use field::Gf;

// The products of a value, the row's factor, with all bytes: one lookup a product.
#[derive(Clone, Copy, Debug, PartialEq, Eq)]
pub struct Row {
    pub products: [u8; 256],
    ghost is: { ProductRow products },
}

impl Multiplier for Row {
    ghost is_by = { λ row c. factor row.products ≡ c };

    fn times(&self, x: u8) -> u8 {
        self.products[usize::from(x)]
    }
}

// A row of products that is lent, where its owner has it; what follows its 256 entries is of no interest.
#[derive(Clone, Copy)]
pub struct LentRow<'a> {
    pub row: &'a [u8],
    ghost is: { ProductRow row.now },
}

impl Multiplier for LentRow<'_> {
    ghost is_by = { λ l c. factor l.row.now ≡ c };

    fn times(&self, x: u8) -> u8 {
        self.row[usize::from(x)]
    }
}

// Writes the entries from w to 2w - 1: those below w, each with `top` added.
fn level(top: u8, w: usize, row: &mut [u8])
    requires { (w + w ≤ length row.old) × below w (bytes row.old) }
    ensures { bytes row.new ≡
        bytes row.old ⊞ zpow w ⊠ cut w (λ i. bytes row.old i ⊕ of top) }
{
    for x in 0..w {
        row[w + x] = row[x] ^ top;
    }
}

// Fills a row of zeros, whose length is a power of two: entry x becomes x times c. The product is linear, so the row is
// made level by level, with doubles of c and no product. The double that would come next is given back: the length
// times c, for a row shorter than 256.
pub fn fill(c: u8, row: &mut [u8]) -> u8
    requires { Power (length row.old) × (bytes row.old ≡ O) }
    ensures entries { bytes row.new ≡ cut (length row.old) (products (of c)) }
    ensures next { length row.old < 256 → of result ≡ of (length row.old) ⊙ of c }
{
    let mut top = c;
    let mut w: usize = 1;
    // Not a `for`: no index is counted, w doubles.
    while w < row.len() {
        level(top, w, row);
        top = crate::byte::twice(top);
        w = w + w;
    }
    top
}

// The row of products of c, whose entry x is x times c.
pub fn product_row(c: Gf) -> Row
    ensures { bytes result.products ≡ cut 256 (products (val c)) }
{
    let mut row = Row {
        products: [0u8; 256],
    };
    fill(c.0, &mut row.products);
    row
}
