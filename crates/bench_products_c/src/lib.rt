// The static library of the products, for the benchmark in C. Each function is exported, calls the function of the
// crate bench_products that has its name, and states the same clause.
#![tactic(auto)]

ghost use Rattle.std.specs.Prelude.{◌≡◌, length};
ghost use Rattle.field.specs.Field.{of};
ghost use Rattle.series.specs.Value.{value};
ghost use Rattle.series.specs.Array.{bytes};
ghost use Rattle.bench_products.specs.Definition.{Adds};

#[unsafe(no_mangle)]
pub extern "C" fn multiple(way: u8, c: u8, from: &[u8], to: &mut [u8])
    ensures { Adds (of c) from.now to.old to.new }
{
    bench_products::multiple(way, c, from, to);
}

#[unsafe(no_mangle)]
pub extern "C" fn value(way: u8, w: u8, word: &[u8]) -> u8
    ensures { of result ≡ value (length word.now) (bytes word.now) (of w) }
{
    bench_products::value(way, w, word)
}
