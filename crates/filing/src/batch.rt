// A batch: the records of a lent buffer filed on a page, all of them or none. The page is tested once.
// Page and width stay parameters with `Standing`: a struct that lends the page to a write would owe its fit again before the write ends.
ghost use Rattle.std.specs.Prelude.{◌≡◌, true, is_ok};
ghost use Rattle.keys.specs.Choice.{pick};
ghost use Rattle.paper.specs.Calls.{insert_of, insert_page};
ghost use Rattle.paper.specs.Demand.{page_after};
ghost use Rattle.filing.specs.Batches.{records_of, fold_from, batch_of, batch_page};
ghost use Rattle.filing.specs.Standing.{Standing};

use crate::records;
use crate::records::Records;
use edit::insert;
use octets::runs;
use paper::refusal::Refusal;
use verdict::fit;

// Why a batch was not filed: the place of the first record refused, and why; or the buffer ends inside a record.
#[derive(Clone, Copy)]
pub enum NotFiled {
    Refused(usize, Refusal),
    Cut,
}

// Insert on a page that stands as tested; it stands so afterwards.
fn file_one(p: &mut [u8], width: u8, key: &[u8], value: u64) -> Result<usize, Refusal>
    requires { Standing width p.old }
    ensures value { result ≡ insert_of width p.old key.now value }
    ensures p_after { p.new ≡ insert_page width p.old key.now value }
    ensures standing { Standing width p.new }
{
    if 65535 < key.len() {
        return Err(Refusal::KeyLength);
    }
    insert::insert_fit(p, width, key, value)
}

// The records one after the other, up to the first one refused; the page is left as the inserts before that leave it. How many were filed
// is the answer, so it is counted.
fn file_all(p: &mut [u8], width: u8, records: Records<'_>) -> Result<usize, NotFiled>
    requires { Standing width p.old }
    ensures value { result ≡ fold_from 0 width p.old (records_of records.entry.left.now) }
    ensures p_after { is_ok result ≡ true → p.new ≡ page_after width p.old (records_of records.entry.left.now) }
{
    let mut filed = 0;
    for record in records {
        if let Err(r) = file_one(p, width, record.key, record.value) {
            return Err(NotFiled::Refused(filed, r));
        }
        filed += 1;
    }
    Ok(filed)
}

// All records or none: where one is refused, the page is put back. The copy's length is a literal, so that no zeros are written first.
fn file_or_restore(p: &mut [u8], width: u8, records: Records<'_>) -> Result<usize, NotFiled>
    requires { Standing width p.old }
    ensures value { result ≡ fold_from 0 width p.old (records_of records.entry.left.now) }
    ensures p_after { p.new ≡ pick (is_ok result) (page_after width p.old (records_of records.entry.left.now)) p.old }
{
    let mut saved = [0u8; 16384];
    runs::copy_in(&mut saved, 0, &p[..16384]);
    let filed = file_all(p, width, records);
    if filed.is_err() {
        runs::copy_in(p, 0, &saved);
    }
    filed
}

// Files the records of a lent buffer in their order, as so many inserts would, and answers their number. Where one of these is
// refused, its place and its refusal are answered, and where the buffer ends inside a record that it does so; then the page
// stays as it was. A batch of no record is refused 1, 2, 5.
pub fn file_batch(p: &mut [u8], width: u8, b: &[u8]) -> Result<usize, NotFiled>
    ensures value { result ≡ batch_of width p.old b.now }
    ensures p_after { p.new ≡ batch_page width p.old b.now }
{
    if !records::holds_records(b) {
        return Err(NotFiled::Cut);
    }
    let records = Records::of(b);
    if let Err(r) = fit::admit_fit(p, width, records.first_length()) {
        return Err(NotFiled::Refused(0, r));
    }
    file_or_restore(p, width, records)
}
