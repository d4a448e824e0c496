// The slots of a page.
ghost use Rattle.std.specs.Prelude.{◌≡◌, ◌*◌, ◌≤◌, length};
ghost use Rattle.paper.specs.Page.{header_of};

use octets::number;

// A page on which all slots lie that its header counts, with the width of its values.
#[derive(Clone, Copy)]
pub struct Slots<'p> {
    pub page: &'p [u8],
    pub width: u8,
    pub payloads: u16,
    ghost size: { 16384 ≤ length page.now },
    ghost fit: { 8 * (header_of page.now).count ≤ 16256 },
    ghost begin: { payloads ≡ (header_of page.now).end },
}

// Count and flag are read where they stand in the header, once a search.
impl<'p> Slots<'p> {
    // How many there are.
    #[tactic(auto, unfolding(paper::specs::Page::header_of, paper::specs::Page::numbers_of))]
    pub fn count(self) -> u16
        ensures { result ≡ (header_of self.entry.page.now).count }
    {
        number::read_u16(self.page, 2)
    }

    // Where payloads begin: read once, since every slot met asks for it.
    pub fn end(self) -> u16
        ensures { result ≡ (header_of self.entry.page.now).end }
    {
        self.payloads
    }

    // The hints flag, as it stands.
    #[tactic(auto, unfolding(paper::specs::Page::header_of, paper::specs::Page::frame_of))]
    pub fn flag(self) -> u8
        ensures { result ≡ (header_of self.entry.page.now).flag }
    {
        number::read_u8(self.page, 45)
    }
}
