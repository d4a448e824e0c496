// The four numbers that edits change: those of the header after an edit, and written back.
// Page, header and width stay parameters for the reason that stands in insert.rt.
ghost use Rattle.std.specs.Prelude.{◌≡◌, ◌+◌, ◌≤◌, ◌<◌, length};
ghost use Rattle.paper.specs.Space.{payload_bytes};
ghost use Rattle.paper.specs.Edits.{put_all, number_fields, more};
ghost use Rattle.node.specs.Header.{numbers_in};
ghost use Rattle.write.specs.Room.{with_numbers};

use node::space;
use octets::number;
use paper::page::Header;

// The header after an entry more, whose suffix has `len` bytes.
pub fn filed(h: Header, width: u8, len: usize) -> Header
    requires { (h.start + 8 + payload_bytes width len ≤ h.end) × (h.count < 65535) × (h.effective ≤ 16352) }
    ensures value { result ≡ with_numbers h (more width (numbers_in h) len) }
    ensures count_value { (result.count ≡ h.count + 1) × (result.end + payload_bytes width len ≡ h.end) }
{
    let payload = space::body_bytes(4, len) + (width as usize);
    let count = h.count + 1;
    let start = h.start + 8;
    let end = h.end - (payload as u16);
    let effective = h.effective + 8 + (payload as u32);
    h.with_count(count)
        .with_start(start)
        .with_end(end)
        .with_effective(effective)
}

// Count, start, end and effective of `h` into their fields, and no other byte.
pub fn write_numbers(p: &mut [u8], h: Header)
    requires { 96 ≤ length p.old }
    ensures { p.new ≡ put_all p.old (number_fields (numbers_in h)) }
{
    number::write_u16(p, 2, h.count);
    number::write_u16(p, 4, h.start);
    number::write_u16(p, 6, h.end);
    number::write_u32(p, 40, h.effective);
}
