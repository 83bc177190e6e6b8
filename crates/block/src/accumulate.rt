// A subword of a block, or a multiple of it, added to a word.
ghost use Rattle.std.specs.Prelude.{◌≤◌, ◌<◌, ◌≡◌, length};
ghost use Rattle.field.specs.Field.{val};
ghost use Rattle.series.specs.Series.{K, ◌⊞◌, ◌⊠◌};
ghost use Rattle.series.specs.Shift.{cut};
ghost use Rattle.series.specs.Array.{bytes};
ghost use Rattle.code.specs.Definition.{subword};
ghost use Rattle.block.specs.Parts.{Fits};

use field::Gf;
use profile::Profile;

// Adds c times subword i of a block to the word, whatever c is.
pub fn add_multiple(p: Profile, c: Gf, block: &[u8], i: usize, word: &mut [u8])
    requires { Fits p block.now × (i < p.subwords) × (p.length ≤ length word.old) }
    ensures { bytes word.new ≡
        bytes word.old ⊞ K (val c) ⊠ cut p.length (subword p.length (bytes block.now) i) }
{
    let n = p.length as usize;
    kernel::add_multiple(c, crate::part::subword(p, block, i), &mut word[..n]);
}

// Adds subword i of a block to the word.
pub fn add_subword(p: Profile, block: &[u8], i: usize, word: &mut [u8])
    requires { Fits p block.now × (i < p.subwords) × (p.length ≤ length word.old) }
    ensures { bytes word.new ≡
        bytes word.old ⊞ cut p.length (subword p.length (bytes block.now) i) }
{
    add_multiple(p, Gf::ONE, block, i, word);
}
