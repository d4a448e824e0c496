// Whether two pages agree, and whether the searches of a page agree with a scan of it.
use crate::records;
use crate::records::Case;
use node::{entry, header, key};
use paper::answers::Found;
use search::find;

// Whether the 96 bytes of two headers are there and the same.
pub(crate) fn headers_agree(a: &[u8], b: &[u8]) -> bool {
    match (a.get(..96), b.get(..96)) {
        (Some(a), Some(b)) => a == b,
        _ => false,
    }
}

// The number of entries of a page.
fn count(page: &[u8]) -> usize {
    if page.len() < 96 {
        return 0;
    }
    header::read_header(page).count as usize
}

// Whether two pages list the same: as many entries, and each with the same key and value.
pub(crate) fn listings_agree(a: &[u8], b: &[u8], width: u8) -> bool {
    let n = count(a);
    if count(b) != n {
        return false;
    }
    (0..n).all(|i| same_key(a, b, width, i) && same_value(a, b, width, i))
}

// Whether entry `i` of both pages has the same key. What stands behind a copied key is zero.
fn same_key(a: &[u8], b: &[u8], width: u8, i: usize) -> bool {
    let mut left = [0u8; 32];
    let mut right = [0u8; 32];
    let Ok(n) = key::copy_key(a, width, i, &mut left) else {
        return false;
    };
    let Ok(m) = key::copy_key(b, width, i, &mut right) else {
        return false;
    };
    n == m && left == right
}

// Whether entry `i` of both pages has the same value.
fn same_value(a: &[u8], b: &[u8], width: u8, i: usize) -> bool {
    let Ok(e) = entry::entry(a, width, i) else {
        return false;
    };
    has_value(b, width, i, e.value)
}

// Whether entry `i` has this value.
fn has_value(page: &[u8], width: u8, i: usize, v: u64) -> bool {
    let Ok(e) = entry::entry(page, width, i) else {
        return false;
    };
    v == e.value
}

// Whether find and a scan agree about every key of a case, the filed ones and the absent ones.
pub(crate) fn finds_agree(page: &[u8], case: Case) -> bool {
    (0..240).all(|i| finds_filed(page, case, i) && finds_absent(page, case, i))
}

// Whether find of record `i` answers the slot that has its key, by a scan, and its value.
fn finds_filed(page: &[u8], case: Case, i: u8) -> bool {
    let key = case.key(records::place(i));
    let probe = key.as_slice();
    let Ok(Found::Equal(slot)) = find::find(page, case.width, probe) else {
        return false;
    };
    let mut room = [0u8; 32];
    slot == smaller(page, case.width, probe)
        && read_key(page, case.width, slot, &mut room).is_some_and(|key| key == probe)
        && has_value(page, case.width, slot, case.value(i))
}

// Whether find of the absent key three places after record `i` answers the number of smaller keys.
fn finds_absent(page: &[u8], case: Case, i: u8) -> bool {
    let key = case.key(records::place(i) + 3);
    let probe = key.as_slice();
    let Ok(Found::Smaller(slot)) = find::find(page, case.width, probe) else {
        return false;
    };
    slot == smaller(page, case.width, probe)
}

// The number of a page's keys that are below the probe, key by key.
fn smaller(page: &[u8], width: u8, probe: &[u8]) -> usize {
    (0..count(page))
        .filter(|&i| {
            let mut room = [0u8; 32];
            read_key(page, width, i, &mut room).is_some_and(|key| key::below(key, probe))
        })
        .count()
}

// The key of entry `i` by way of `room`; none where it cannot be read or has more than 32 bytes.
fn read_key<'a>(page: &[u8], width: u8, i: usize, room: &'a mut [u8; 32]) -> Option<&'a [u8]> {
    match key::copy_key(page, width, i, room) {
        Ok(n) if n <= 32 => Some(&room[..n]),
        _ => None,
    }
}
