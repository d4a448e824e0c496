// Pages: begun, and filled with the records of a case in an order.
ghost use Rattle.std.specs.Prelude.{◌+◌, ◌≤◌, length};

use crate::records;
use crate::records::{Case, Order};
use edit::{begin, insert};
use filing::batch;
use octets::{number, runs};
use paper::refusal::Refusal;

// Begins a page: long keys stand between two fences that share seven bytes, short ones have none.
fn begin_page(page: &mut [u8], case: Case) -> Result<(), Refusal> {
    if case.long {
        return begin::begin(page, 0, 7, b"parcel/a", 9, b"parcel/c", case.hints);
    }
    begin::begin(page, 0, 7, b"", 9, b"", case.hints)
}

// Begins a page and files the records one by one in an order; answers how many were filed.
pub(crate) fn file_order(page: &mut [u8], case: Case, order: Order) -> usize {
    if begin_page(page, case).is_err() {
        return 0;
    }
    (0..240)
        .filter(|&i| file_record(page, case, order.number_at(i)))
        .count()
}

// Files record `i`; answers whether it was filed.
fn file_record(page: &mut [u8], case: Case, i: u8) -> bool {
    let key = case.key(records::place(i));
    insert::insert(page, case.width, key.as_slice(), case.value(i)).is_ok()
}

// Begins a page and files the records at once in an order of their own; answers how many were filed.
pub(crate) fn file_at_once(page: &mut [u8], case: Case) -> usize {
    if begin_page(page, case).is_err() {
        return 0;
    }
    let mut buffer = [0u8; 6240];
    let n = write_records(&mut buffer, case);
    batch::file_batch(page, case.width, &buffer[..n]).unwrap_or(0)
}

// The records one after the other from the front of the buffer on; answers where they end. A buffer with a place, since there is no heap.
fn write_records(buffer: &mut [u8], case: Case) -> usize
    requires { 6240 ≤ length buffer.old }
    ensures { result ≤ 6240 }
{
    let mut at = 0;
    for i in 0..240 {
        at += write_record(&mut buffer[at..], case, Order::LongStrides.number_at(i));
    }
    at
}

// Record `i` at the front of the buffer; answers how many bytes it has.
fn write_record(buffer: &mut [u8], case: Case, i: u8) -> usize
    requires { 26 ≤ length buffer.old }
    ensures { result ≤ 26 }
{
    let key = case.key(records::place(i));
    let bytes = key.as_slice();
    number::write_u32(buffer, 0, bytes.len() as u32);
    runs::copy_in(buffer, 4, bytes);
    number::write_u64(buffer, 4 + bytes.len(), case.value(i));
    12 + bytes.len()
}
