// The data of a block, in the order in which they were written. What the promise speaks of stands in specs/Gather.antt.
ghost use Rattle.std.specs.Prelude.{◌≡◌, length};
ghost use Rattle.profile.specs.Definition.{data_size as DataSize};
ghost use Rattle.block.specs.Parts.{Fits};
ghost use Rattle.block.specs.Gather.{data_of};

use profile::Profile;

// Copies the data of a block, subword after subword.
pub fn gather(p: Profile, block: &[u8], out: &mut [u8])
    requires { Fits p block.now × (length out.old ≡ DataSize p) }
    ensures { out.new ≡ data_of p block.now }
{
    let m = p.subwords as usize;
    let mut at: usize = 0;
    for i in 0..m {
        let part = profile::fetch::positions(p, block, i);
        let e = at + part.len();
        out[at..e].copy_from_slice(part);
        at = e;
    }
}
