// The eight hints in the header: whether they are in use, read and written.
ghost use Rattle.std.specs.Prelude.{◌≡◌, ◌≤◌, length};
ghost use Rattle.octets.specs.Bytes.{put};
ghost use Rattle.paper.specs.Page.{hints_of};
ghost use Rattle.paper.specs.Hints.{in_use, flat};

use octets::number;
use std::array;

// Whether hints are in use on a page with this hints flag and this many entries.
#[tactic(auto, unfolding(paper::specs::Hints::in_use))]
pub fn in_use(flag: u8, count: u16) -> bool
    ensures { result ≡ in_use flag count }
{
    (flag == 1) & (64 <= count)
}

// The eight hints of the header.
pub fn read_hints(p: &[u8]) -> [u32; 8]
    requires { 96 ≤ length p.now }
    ensures { result ≡ hints_of p.now }
{
    array::from_fn(|i| number::read_u32(p, 64 + 4 * i))
}

// The eight hints into the header's bytes 64 to 95.
#[tactic(auto, using(crate::proofs::Runs::writing))]
pub fn write_hints(p: &mut [u8], hints: [u32; 8])
    requires { 96 ≤ length p.old }
    ensures { p.new ≡ put p.old 64 (flat hints) }
{
    for (i, hint) in hints.iter().enumerate() {
        number::write_u32(p, 64 + 4 * i, *hint);
    }
}
