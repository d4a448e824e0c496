// The key view: prefix and long suffix as they stand on the page, in a struct with a few thin methods.
ghost use Rattle.std.specs.Prelude.{◌≡◌, ◌++◌, ◌+◌, ◌^◌, ◌<◌, ◌≤◌, length};
ghost use Rattle.octets.specs.Bytes.{big_bytes, put};
ghost use Rattle.keys.specs.Keys.{order};
ghost use Rattle.paper.specs.Page.{prefix_of, suffix_of, body_bytes};
ghost use Rattle.view.specs.Shown.{long_suffix, shown_suffix, shown};

use keys::shared;
use node::key;
use octets::runs;
use paper::page::Slot;
use std::cmp::Ordering;

// A key: the page's prefix, then a suffix of `len` bytes, which is `suffix` where it is longer than four and else the first
// of the `short` bytes: document 01's form. Anyone may build one, so there is no invariant: each method asks for what it needs.
#[derive(Clone, Copy)]
pub struct KeyView<'p> {
    pub prefix: &'p [u8],
    pub suffix: &'p [u8],
    pub short: [u8; 4],
    pub len: usize,
}

// The long suffix of a slot as it stands on the page; no bytes where the suffix is short, where `node::key::suffix` gives the head's. It asks
// less of the page than a whole view does, and so stands by itself.
#[tactic(auto, unfolding(paper::specs::Page::body_bytes, octets::specs::Bytes::part))]
pub fn long_suffix(p: &[u8], s: Slot) -> &[u8]
    requires { 96 + s.offset + body_bytes 4 s.len ≤ length p.now }
    ensures { result.now ≡ long_suffix p.now s }
{
    let n = s.len as usize;
    if n <= 4 {
        return &p[..0];
    }
    let start = 96 + (s.offset as usize);
    &p[start..start + n]
}

impl<'p> KeyView<'p> {
    // The view of a slot's key on a page whose prefix has that length.
    pub fn new(p: &'p [u8], prefix_len: u16, s: Slot) -> KeyView<'p>
        requires { (16384 ≤ length p.now) × (prefix_len ≤ 16256) × (96 + s.offset + body_bytes 4 s.len ≤ length p.now) }
        ensures parts { (result.prefix.now ≡ prefix_of p.now prefix_len) × (result.suffix.now ≡ long_suffix p.now s) × (result.short ≡ big_bytes 4 s.head) × (result.len ≡ s.len) }
        ensures key { shown result ≡ prefix_of p.now prefix_len ++ suffix_of p.now s }
        ensures size { (length result.prefix.now ≡ prefix_len) × (length (shown result) ≡ prefix_len + s.len) }
    {
        KeyView {
            prefix: key::prefix(p, prefix_len),
            suffix: long_suffix(p, s),
            short: key::head_bytes(s.head),
            len: s.len as usize,
        }
    }

    // The length of the key.
    pub fn len(&self) -> usize
        requires { length self.now.prefix.now + self.now.len < 2 ^ 64 }
        ensures { result ≡ length self.now.prefix.now + self.now.len }
    {
        self.prefix.len() + self.len
    }

    // The prefix.
    pub fn prefix(&self) -> &'p [u8]
        ensures { result ≡ self.now.prefix }
    {
        self.prefix
    }

    // The long suffix; no bytes where the suffix is short.
    pub fn suffix(&self) -> &'p [u8]
        ensures { result ≡ self.now.suffix }
    {
        self.suffix
    }

    // The four bytes of which the first are a short suffix.
    pub fn short(&self) -> [u8; 4]
        ensures { result ≡ self.now.short }
    {
        self.short
    }

    // The suffix shown: the first of the short bytes, or the long one.
    pub fn shown_suffix(&self) -> &[u8]
        ensures { result.now ≡ shown_suffix self.now.suffix.now self.now.short self.now.len }
    {
        if self.len <= 4 {
            return &self.short[..self.len];
        }
        self.suffix
    }

    // The key shown, below, at or above the probe.
    pub fn compare(&self, probe: &[u8]) -> Ordering
        ensures { result ≡ order (shown self.now) probe.now }
    {
        let n = self.prefix.len().min(probe.len());
        match shared::order_by_shared(self.prefix, &probe[..n]) {
            Ordering::Equal => shared::order_by_shared(self.shown_suffix(), &probe[n..]),
            apart => apart,
        }
    }

    // Writes the key shown to the front of `out`, and no other byte.
    #[tactic(auto, using(node::proofs::Spelling::put_both))]
    pub fn copy(&self, out: &mut [u8])
        requires { length (shown self.now) ≤ length out.old }
        ensures { out.new ≡ put out.old 0 (shown self.now) }
    {
        runs::copy_in(out, 0, self.prefix);
        runs::copy_in(out, self.prefix.len(), self.shown_suffix());
    }
}
