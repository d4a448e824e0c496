// Run copy: entries of one page appended to another, their keys cut anew under the other's prefix.
// The page that is written, its header and the width stay parameters for the reason that stands in insert.rt.
ghost use Rattle.std.specs.Prelude.{◌≡◌, ◌+◌, ◌*◌, ◌≤◌, ◌<◌, length};
ghost use Rattle.paper.specs.Page.{numbers_of, header_of};
ghost use Rattle.paper.specs.Edits.{more, numbered, appended, run_copied};
ghost use Rattle.paper.specs.Calls.{run};
ghost use Rattle.node.specs.Header.{numbers_in};
ghost use Rattle.write.specs.Room.{with_numbers, Room, Source, Ready, entry_at, cut_key};

use crate::insert;
use crate::suffix::Suffix;
use hint::fresh;
use node::{entry, header, key};
use octets::value;
use paper::page::Header;

// The page that a run is copied from, with the length of its prefix and the width of its values: all of its entries can be read.
#[derive(Drop)]
struct SourcePage<'q> {
    page: &'q [u8],
    prefix_len: u16,
    width: u8,
    ghost readable: { Source width page.now prefix_len },
}

// Entry `j` of the source behind all entries of `p`.
fn append(p: &mut [u8], h: Header, source: &SourcePage<'_>, j: usize) -> Header
    requires there { j < (numbers_of source.now.page.now).count }
    requires room { let e = entry_at source.now.width source.now.page.now j in Room source.now.width p.old h h.count (length (cut_key h e)) }
    ensures value { let e = entry_at source.now.width source.now.page.now j in result ≡ with_numbers h (more source.now.width (numbers_in h) (length (cut_key h e))) }
    ensures p_after { let e = entry_at source.now.width source.now.page.now j in p.new ≡ numbered source.now.width p.old h.count (cut_key h e) e.value }
{
    let q = source.page;
    let s = header::read_slot(q, 96 + 8 * j);
    let value = value::read_value(q, entry::value_at(s), source.width as usize);
    let four = key::head_bytes(s.head);
    let cut = Suffix::cut(
        key::prefix(q, source.prefix_len),
        key::suffix(q, s, &four),
        h.prefix_len as usize,
    );
    insert::file(p, h, source.width, h.count as usize, &cut, value)
}

// Entries `a` to `a + n` of the source one after the other, and the header written back each time. Hints stay as they are.
fn append_run(p: &mut [u8], h: Header, source: &SourcePage<'_>, a: usize, n: usize) -> Header
    requires { (a + n ≤ (numbers_of source.now.page.now).count) × (Ready source.now.width p.old h (run source.now.width source.now.page.now a n)) }
    ensures value { (result ≡ header_of p.new) × (8 * result.count ≤ 16256) }
    ensures p_after { p.new ≡ appended source.now.width p.old (run source.now.width source.now.page.now a n) }
{
    let mut filed = h;
    for j in a..a + n {
        filed = append(p, filed, source, j);
    }
    filed
}

// Entries `a` to `a + n` of the page `q`; then, where there are any, the hints in use are refreshed.
pub fn copy_run(p: &mut [u8], h: Header, width: u8, q: &[u8], prefix_len: u16, a: usize, n: usize)
    requires { (Source width q.now prefix_len) × (a + n ≤ (numbers_of q.now).count) × (Ready width p.old h (run width q.now a n)) }
    ensures { p.new ≡ run_copied width p.old (run width q.now a n) }
{
    if n == 0 {
        return;
    }
    let source = SourcePage {
        page: q,
        prefix_len,
        width,
    };
    let filed = append_run(p, h, &source, a, n);
    fresh::refresh(p, filed.flag, filed.count);
}
