// Nested words of a block, FORMAT's nested sums (3.4).
ghost use Rattle.std.specs.Prelude.{◌<◌, ◌≡◌};
ghost use Rattle.series.specs.Shift.{cut};
ghost use Rattle.series.specs.Array.{bytes};
ghost use Rattle.code.specs.Definition.{nested as Nested};
ghost use Rattle.block.specs.Parts.{Fits};

use field::Exponent;
use profile::{POSITIONS, Profile};

// Nested word l of a block (FORMAT 3.4). The factor of subword i, α^(i l), is found before its symbols are walked.
pub fn nested_word(p: Profile, block: &[u8], l: usize) -> [u8; POSITIONS]
    requires { Fits p block.now × (l < p.nested) }
    ensures { bytes result ≡ cut p.length (Nested p (bytes block.now) l) }
{
    let m = p.subwords as usize;
    let mut word = [0u8; POSITIONS];
    for i in 0..m {
        let c = Exponent(i * l).power();
        crate::accumulate::add_multiple(p, c, block, i, &mut word);
    }
    word
}
