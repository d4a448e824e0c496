// A probe against the page's prefix.
ghost use Rattle.std.specs.Prelude.{◌≡◌, ◌≤◌, eqb, length};
ghost use Rattle.paper.specs.Page.{frame_of};
ghost use Rattle.paper.specs.Searches.{probe_suffix};
ghost use Rattle.search.specs.Probe.{class_by, class_number};

use keys::shared;
use node::key;
use octets::number;
use std::cmp::Ordering;

// Where the probe stands to the page's prefix: 0 before it, 1 within it, 2 after it. A number from a call of its
// own, document 01's form of the class; `prefix_len` and its facts stay clauses: callers read that one number, not the header.
#[tactic(auto, using(crate::proofs::Classes::classes))]
pub fn class(p: &[u8], prefix_len: u16, probe: &[u8]) -> u8
    requires { (16384 ≤ length p.now) × (prefix_len ≤ 16256) }
    ensures { result ≡ class_number (class_by p.now prefix_len probe.now) }
{
    let prefix = key::prefix(p, prefix_len);
    let n = prefix_len as usize;
    if probe.len() <= n {
        return number_of(shared::order_by_shared(probe, prefix));
    }
    number_of(shared::order_by_shared(&probe[..n], prefix))
}

// Whether the probe begins with the page's prefix: class 1 and no other.
#[tactic(auto, using(crate::proofs::Classes::within))]
pub fn within(p: &[u8], prefix_len: u16, probe: &[u8]) -> bool
    requires { (16384 ≤ length p.now) × (prefix_len ≤ 16256) }
    ensures { result ≡ eqb (class_number (class_by p.now prefix_len probe.now)) 1 }
{
    if prefix_len == 0 {
        return true;
    }
    shared::begins_with(probe, key::prefix(p, prefix_len))
}

// The class as a number.
#[tactic(auto, unfolding(crate::specs::Probe::class_number))]
fn number_of(o: Ordering) -> u8
    ensures { result ≡ class_number o }
{
    match o {
        Ordering::Less => 0,
        Ordering::Equal => 1,
        Ordering::Greater => 2,
    }
}

// The probe without the page's prefix: part of the probe, never of the page. Empty where the probe is shorter.
#[tactic(auto, using(crate::proofs::Classes::suffixes))]
pub fn suffix<'p, 'k>(p: &'p [u8], probe: &'k [u8]) -> &'k [u8]
    requires { 48 ≤ length p.now }
    ensures { result.now ≡ probe_suffix (frame_of p.now) probe.now }
{
    let n = number::read_u16(p, 46) as usize;
    if probe.len() <= n {
        return &probe[probe.len()..];
    }
    &probe[n..]
}
