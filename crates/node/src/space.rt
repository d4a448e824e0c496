// Space: the space numbers of a page, what an entry needs, and what two fences take before the first entry.
ghost use Rattle.std.specs.Prelude.{◌≡◌, ◌≤◌};
ghost use Rattle.paper.specs.Page.{body_bytes};
ghost use Rattle.paper.specs.Space.{fence_bytes};
ghost use Rattle.paper.specs.Calls.{space_read, need_of, forecast_of};

use crate::{admit, header};
use keys::shared;
use paper::answers::{Forecast, Space};
use paper::refusal::Refusal;

// The bytes of the body that `n` bytes take, where up to `most` live elsewhere.
#[tactic(auto, unfolding(paper::specs::Page::body_bytes))]
pub fn body_bytes(most: usize, n: usize) -> usize
    ensures { (result ≡ body_bytes most n) × (result ≤ n) }
{
    if n <= most {
        return 0;
    }
    n
}

// The bytes of the body that a prefix and the suffixes of both fences take, from their lengths.
#[tactic(auto, unfolding(paper::specs::Space::fence_bytes))]
pub fn fence_bytes(prefix: usize, lower: usize, upper: usize) -> usize
    requires { (prefix ≤ 65535) × (lower ≤ 65535) × (upper ≤ 65535) }
    ensures { (result ≡ fence_bytes prefix lower upper) × (result ≤ 196605) }
{
    body_bytes(16, prefix) + body_bytes(4, lower) + body_bytes(4, upper)
}

// The space numbers: 1, 4, and 5 with 8 where effective exceeds used.
#[tactic(auto, using(crate::proofs::Spaces::space_numbers), unfolding(paper::specs::Space::space_of))]
pub fn space_numbers(p: &[u8]) -> Result<Space, Refusal>
    ensures { result ≡ space_read p.now }
{
    if p.len() != 16384 {
        return Err(Refusal::PageLength);
    }
    let h = header::read_header(p);
    if !header::rules_hold(h) {
        return Err(Refusal::HeaderRules);
    }
    let start = h.start as u64;
    let end = h.end as u64;
    let effective = h.effective as u64;
    let free = end - start;
    let used = 16352 - free;
    if used < effective {
        return Err(Refusal::NotFit(8));
    }
    Ok(Space {
        start,
        end,
        free,
        used,
        effective,
        reclaimable: used - effective,
        compacted: 16352 - effective,
    })
}

// What an entry takes, from its key and the page's prefix length: 2, 3, and 8 where the key is shorter than the prefix.
#[tactic(auto, using(crate::proofs::Spaces::needs))]
pub fn need(width: u8, prefix_len: usize, key: &[u8]) -> Result<u64, Refusal>
    ensures { result ≡ need_of width prefix_len key.now }
{
    if !admit::known_width(width) {
        return Err(Refusal::Width);
    }
    if 65535 < key.len() {
        return Err(Refusal::KeyLength);
    }
    if key.len() < prefix_len {
        return Err(Refusal::Prefix);
    }
    let n = body_bytes(4, key.len() - prefix_len);
    Ok(8 + (width as u64) + (n as u64))
}

// What a page takes that begins with two fences: 3; else their common prefix length, and 96 plus the body bytes.
#[tactic(auto, using(crate::proofs::Spaces::forecasts))]
pub fn forecast(lower: &[u8], upper: &[u8]) -> Result<Forecast, Refusal>
    ensures { result ≡ forecast_of lower.now upper.now }
{
    if 65535 < lower.len() {
        return Err(Refusal::KeyLength);
    }
    if 65535 < upper.len() {
        return Err(Refusal::KeyLength);
    }
    let n = shared::common_prefix_len(lower, upper);
    let bytes = fence_bytes(n, lower.len() - n, upper.len() - n);
    Ok(Forecast {
        prefix_len: n,
        space: 96 + bytes,
    })
}
