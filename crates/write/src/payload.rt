// Payloads: what of an entry is written into the body.
ghost use Rattle.std.specs.Prelude.{◌≡◌, ◌≤◌, length};
ghost use Rattle.octets.specs.Bytes.{put};
ghost use Rattle.paper.specs.Space.{payload_bytes};
ghost use Rattle.paper.specs.Edits.{payload_of};

use crate::suffix::Suffix;
use octets::value;

// A suffix above four bytes and the value behind it, at the front of `part`: the page from the payload's first byte on.
pub(crate) fn write_payload(part: &mut [u8], width: u8, suffix: &Suffix<'_>, value: u64)
    requires { payload_bytes width (length suffix.now) ≤ length part.old }
    ensures { part.new ≡ put part.old 0 (payload_of width suffix.now value) }
{
    let n = suffix.write(part);
    value::write_value(part, n, width as usize, value);
}
