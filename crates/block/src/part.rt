// A subword of a block, as a part of it.
ghost use Rattle.std.specs.Prelude.{◌<◌};
ghost use Rattle.block.specs.Parts.{Fits, Part};

use profile::Profile;

// Subword i of a block.
pub fn subword<'a>(p: Profile, block: &'a [u8], i: usize) -> &'a [u8]
    requires { Fits p block.now × (i < p.subwords) }
    ensures { Part p block.now i result.now }
{
    let n = p.length as usize;
    let start = i * n;
    &block[start..start + n]
}
