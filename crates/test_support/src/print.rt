// The fields of a line: each function appends a text to a line, as far as it has room. What the promises speak of
// stands in specs/Text.antt.
ghost use Rattle.listing.specs.Definition.{Appended};
ghost use Rattle.test_support.specs.Text.{number_text, difference_text, numbers_text};
ghost use Rattle.test_support.specs.Text.{change_text, changes_text};

use listing::text::Text;

// Room for what most programs print in a line.
pub type Line = Text<4096>;

// A number after a space.
pub fn number<const N: usize>(line: &mut Text<N>, n: usize)
    ensures { Appended N (number_text n) line.old line.new }
{
    line.put(b" ");
    line.digits(n);
}

// The difference a - b after a space.
pub fn difference<const N: usize>(line: &mut Text<N>, a: usize, b: usize)
    ensures { Appended N (difference_text a b) line.old line.new }
{
    if b <= a {
        return number(line, a - b);
    }
    line.put(b" -");
    line.digits(b - a);
}

// The bytes of s as numbers, each after a space.
pub fn numbers<const N: usize>(line: &mut Text<N>, s: &[u8])
    ensures { Appended N (numbers_text s.now) line.old line.new }
{
    for x in s {
        number(line, usize::from(*x));
    }
}

fn change<const N: usize>(line: &mut Text<N>, position: usize, x: u8, y: u8)
    ensures { Appended N (change_text position x y) line.old line.new }
{
    if x != y {
        number(line, position);
        number(line, usize::from(y));
    }
}

// The positions where y differs from x, each with y's byte.
pub fn changes<const N: usize>(line: &mut Text<N>, x: &[u8], y: &[u8])
    ensures { Appended N (changes_text x.now y.now) line.old line.new }
{
    for i in 0..x.len().min(y.len()) {
        change(line, i, x[i], y[i]);
    }
}
