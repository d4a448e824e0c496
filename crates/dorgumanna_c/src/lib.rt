// The static library: every call as a C function. A lent slice is a pointer and a length. Each is a line over its namesake in
// `dorgumanna::calls`, since an exported function cannot be generic, and a crate is a library or a static library.
#![tactic(auto)]

ghost use Rattle.std.specs.Prelude.{◌≡◌, true, false};
ghost use Rattle.paper.specs.Calls.{find_of, bound_of, compare_of, read_entry, copy_of, copy_buffer, trailing_of, space_read, need_of, forecast_of, child_of, layout_verdict, fit_verdict, begin_of, begin_page, insert_of, insert_page, set_of, set_page, change_of, change_page, run_of, run_page};
ghost use Rattle.paper.specs.Answers.{found_says, bound_says, compared_says, entry_says, copied_says, trailing_says, needed_says, forecast_says, child_says, layout_says, fit_says, edited_says, filed_says, replaced_says};
ghost use Rattle.edit.specs.Begins.{given};
ghost use Rattle.filing.specs.Batches.{batch_of, batch_page};
ghost use Rattle.dorgumanna.specs.Told.{told, space_told, batch_told};

use dorgumanna::answer::{Answer, SpaceAnswer};
use dorgumanna::calls;

// Find: `a` the slot and `b` 1, or `b` 0 and `a` where halving ended, on a fit page the number of smaller keys.
#[unsafe(no_mangle)]
pub extern "C" fn dorgumanna_find(page: &[u8], width: u8, key: &[u8]) -> Answer
    ensures { result ≡ told (found_says (find_of width page.now key.now)) }
{
    calls::dorgumanna_find(page, width, key)
}

// Lower bound: `a` where halving ended, on a fit page the number of keys below the probe.
#[unsafe(no_mangle)]
pub extern "C" fn dorgumanna_lower_bound(page: &[u8], width: u8, key: &[u8]) -> Answer
    ensures { result ≡ told (bound_says (bound_of false width page.now key.now)) }
{
    calls::dorgumanna_lower_bound(page, width, key)
}

// Upper bound: `a` where halving ended, on a fit page the number of keys at most the probe.
#[unsafe(no_mangle)]
pub extern "C" fn dorgumanna_upper_bound(page: &[u8], width: u8, key: &[u8]) -> Answer
    ensures { result ≡ told (bound_says (bound_of true width page.now key.now)) }
{
    calls::dorgumanna_upper_bound(page, width, key)
}

// Compare: `a` -1, 0 or 1 in two's complement, for a slot below, at or above the probe.
#[unsafe(no_mangle)]
pub extern "C" fn dorgumanna_compare(page: &[u8], width: u8, slot: usize, key: &[u8]) -> Answer
    ensures { result ≡ told (compared_says (compare_of width page.now slot key.now)) }
{
    calls::dorgumanna_compare(page, width, slot, key)
}

// Child: `a` the highest slot whose key is at most the probe, or -1 in two's complement, `b` the child's value.
#[unsafe(no_mangle)]
pub extern "C" fn dorgumanna_child(page: &[u8], key: &[u8]) -> Answer
    ensures { result ≡ told (child_says (child_of page.now key.now)) }
{
    calls::dorgumanna_child(page, key)
}

// Entry: `a` its value.
#[unsafe(no_mangle)]
pub extern "C" fn dorgumanna_entry(page: &[u8], width: u8, slot: usize) -> Answer
    ensures { result ≡ told (entry_says (read_entry width page.now slot)) }
{
    calls::dorgumanna_entry(page, width, slot)
}

// Key copy: the key to the front of `out`, `a` its length.
#[unsafe(no_mangle)]
pub extern "C" fn dorgumanna_copy_key(page: &[u8], width: u8, slot: usize, out: &mut [u8]) -> Answer
    ensures value { result ≡ told (copied_says (copy_of width page.now slot out.old)) }
    ensures out_after { out.new ≡ copy_buffer width page.now slot out.old }
{
    calls::dorgumanna_copy_key(page, width, slot, out)
}

// Trailing id: `a` the key's last eight bytes as a number.
#[unsafe(no_mangle)]
pub extern "C" fn dorgumanna_trailing_id(page: &[u8], width: u8, slot: usize) -> Answer
    ensures { result ≡ told (trailing_says (trailing_of width page.now slot)) }
{
    calls::dorgumanna_trailing_id(page, width, slot)
}

// The space numbers.
#[unsafe(no_mangle)]
pub extern "C" fn dorgumanna_space(page: &[u8]) -> SpaceAnswer
    ensures { result ≡ space_told (space_read page.now) }
{
    calls::dorgumanna_space(page)
}

// Need: `a` the bytes that an entry takes on a page with a prefix of that length.
#[unsafe(no_mangle)]
pub extern "C" fn dorgumanna_need(width: u8, prefix_len: usize, key: &[u8]) -> Answer
    ensures { result ≡ told (needed_says (need_of width prefix_len key.now)) }
{
    calls::dorgumanna_need(width, prefix_len, key)
}

// Forecast: `a` the common prefix length of two fences, `b` the space that a page begins with.
#[unsafe(no_mangle)]
pub extern "C" fn dorgumanna_forecast(lower: &[u8], upper: &[u8]) -> Answer
    ensures { result ≡ told (forecast_says (forecast_of lower.now upper.now)) }
{
    calls::dorgumanna_forecast(lower, upper)
}

// Layout verdict: `a` 1 yes, 0 no.
#[unsafe(no_mangle)]
pub extern "C" fn dorgumanna_layout(page: &[u8], width: u8) -> Answer
    ensures { result ≡ told (layout_says (layout_verdict width page.now)) }
{
    calls::dorgumanna_layout(page, width)
}

// Fit verdict: `a` 0, or the first rule broken.
#[unsafe(no_mangle)]
pub extern "C" fn dorgumanna_fit(page: &[u8], width: u8) -> Answer
    ensures { result ≡ told (fit_says (fit_verdict width page.now)) }
{
    calls::dorgumanna_fit(page, width)
}

// Begin: makes of the page one without entries between two fences.
#[unsafe(no_mangle)]
pub extern "C" fn dorgumanna_begin(
    page: &mut [u8],
    height: u16,
    timestamp: u64,
    lower: &[u8],
    lower_value: u64,
    upper: &[u8],
    flag: bool,
) -> Answer
    ensures value { result ≡ told (edited_says (begin_of page.old (given height timestamp lower.now lower_value upper.now flag))) }
    ensures page_after { page.new ≡ begin_page page.old (given height timestamp lower.now lower_value upper.now flag) }
{
    calls::dorgumanna_begin(page, height, timestamp, lower, lower_value, upper, flag)
}

// Insert: files the key with its value, `a` its slot number.
#[unsafe(no_mangle)]
pub extern "C" fn dorgumanna_insert(page: &mut [u8], width: u8, key: &[u8], value: u64) -> Answer
    ensures value { result ≡ told (filed_says (insert_of width page.old key.now value)) }
    ensures page_after { page.new ≡ insert_page width page.old key.now value }
{
    calls::dorgumanna_insert(page, width, key, value)
}

// Set value: replaces the expected value of a key by another, `a` the old one.
#[unsafe(no_mangle)]
pub extern "C" fn dorgumanna_set_value(
    page: &mut [u8],
    width: u8,
    key: &[u8],
    expected: u64,
    new: u64,
) -> Answer
    ensures value { result ≡ told (replaced_says (set_of width page.old key.now expected new)) }
    ensures page_after { page.new ≡ set_page width page.old key.now expected new }
{
    calls::dorgumanna_set_value(page, width, key, expected, new)
}

// Change key: gives a slot another key.
#[unsafe(no_mangle)]
pub extern "C" fn dorgumanna_change_key(
    page: &mut [u8],
    width: u8,
    slot: usize,
    key: &[u8],
) -> Answer
    ensures value { result ≡ told (edited_says (change_of width page.old slot key.now)) }
    ensures page_after { page.new ≡ change_page width page.old slot key.now }
{
    calls::dorgumanna_change_key(page, width, slot, key)
}

// Run copy: `n` entries of the source from `first` on, behind all entries of the page.
#[unsafe(no_mangle)]
pub extern "C" fn dorgumanna_copy_run(
    page: &mut [u8],
    source: &[u8],
    width: u8,
    first: usize,
    n: usize,
) -> Answer
    ensures value { result ≡ told (edited_says (run_of width page.old source.now first n)) }
    ensures page_after { page.new ≡ run_page width page.old source.now first n }
{
    calls::dorgumanna_copy_run(page, source, width, first, n)
}

// Batch: files all records of a buffer, each a u32 key length, the key and a u64 value, or none; `a` their number. A refusal has
// the place of the record refused in `a` and what it carries in `b`; 255 is a buffer that ends inside a record.
#[unsafe(no_mangle)]
pub extern "C" fn dorgumanna_file_batch(page: &mut [u8], width: u8, records: &[u8]) -> Answer
    ensures value { result ≡ batch_told (batch_of width page.old records.now) }
    ensures page_after { page.new ≡ batch_page width page.old records.now }
{
    calls::dorgumanna_file_batch(page, width, records)
}
