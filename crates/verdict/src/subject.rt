// A page that is judged.
ghost use Rattle.std.specs.Prelude.{◌≡◌, true, false, ◌≤◌, length, IfNone, IfSome};
ghost use Rattle.octets.specs.Bytes.{IsBytes};
ghost use Rattle.paper.specs.Page.{header_of};
ghost use Rattle.node.specs.Header.{rules_of};

use node::header;
use paper::page::Header;

// The bytes of a page, its header, which keeps the header rules, and the width of its values.
#[derive(Clone, Copy)]
pub struct Judged<'p> {
    pub page: &'p [u8],
    pub header: Header,
    pub width: u8,
    ghost bytes: { IsBytes page.now },
    ghost long: { 16384 ≤ length page.now },
    ghost rules: { rules_of header ≡ true },
}

impl<'p> Judged<'p> {
    // The page with its header, or None where that breaks the header rules.
    pub fn of(page: &'p [u8], width: u8) -> Option<Judged<'p>>
        requires { 16384 ≤ length page.now }
        ensures broken { IfNone result (rules_of (header_of page.now) ≡ false) }
        ensures kept { IfSome result (λ j. (j.page.now ≡ page.now) × (j.header ≡ header_of page.now) × (j.width ≡ width)) }
    {
        let header = header::read_header(page);
        if !header::rules_hold(header) {
            return None;
        }
        Some(Judged {
            page,
            header,
            width,
        })
    }
}
