// The bench samples of document 01, one line each: the call, its arguments, and what it answers now.
// Keys are in hex, the empty key is "-", an order is -1, 0 or 1.
#![tactic(auto)]

use dorgumanna::answer;
use edit::{begin, change, insert};
use hint::hints;
use keys::{head, order, shared};
use node::{header, space};
use octets::number;
use paper::refusal::Refusal;
use std::cmp::Ordering;
use std::io;
use std::io::Write;

fn main(rt: HostRuntime) -> io::Result<()> {
    let mut stdout = rt.stdout();
    let out = &mut stdout;
    head_of(out, b"")?;
    head_of(out, b"a")?;
    head_of(out, b"a\x00")?;
    head_of(out, b"parcel")?;
    order_of(out, b"a", b"a\x00")?;
    order_of(out, b"abcd", b"abcde")?;
    order_of(out, b"abcde", b"abcdf")?;
    common_prefix_of(out, b"hub/A", b"hub/B")?;
    common_prefix_of(out, b"", b"")?;
    need_of(out, 8, b"abcd")?;
    need_of(out, 8, b"abcde")?;
    need_of(out, 0, b"")?;
    forecast_of(out, b"xxxxxxxxxxxxxxxxxa", b"xxxxxxxxxxxxxxxxxb")?;
    forecast_of(out, b"xxxxxxxxxxxxxxxxa", b"xxxxxxxxxxxxxxxxb")?;
    begin_of(out, b"xxxxxxxxxxxxxxxxxa", b"xxxxxxxxxxxxxxxxxb")?;
    begin_of(out, b"xxxxxxxxxxxxxxxxa", b"xxxxxxxxxxxxxxxxb")?;
    fill_page(out)?;
    hints_of(out, 63)?;
    hints_of(out, 64)?;
    change_of(out, b"par")?;
    change_of(out, b"parcels")
}

// The head of a suffix, as eight hex digits.
fn head_of<W: Write>(out: &mut W, suffix: &[u8]) -> io::Result<()> {
    out.write_all(b"head ")?;
    print_key(out, suffix)?;
    let n = head::head_int(suffix);
    write!(out, " {n:08x}\n")
}

// How the first key stands to the second.
fn order_of<W: Write>(out: &mut W, a: &[u8], b: &[u8]) -> io::Result<()> {
    out.write_all(b"order ")?;
    print_key(out, a)?;
    out.write_all(b" ")?;
    print_key(out, b)?;
    match order::compare(a, b) {
        Ordering::Less => out.write_all(b" -1\n"),
        Ordering::Equal => out.write_all(b" 0\n"),
        Ordering::Greater => out.write_all(b" 1\n"),
    }
}

// The length of the longest common prefix.
fn common_prefix_of<W: Write>(out: &mut W, a: &[u8], b: &[u8]) -> io::Result<()> {
    out.write_all(b"common prefix ")?;
    print_key(out, a)?;
    out.write_all(b" ")?;
    print_key(out, b)?;
    print_number(out, shared::common_prefix_len(a, b) as u64)?;
    out.write_all(b"\n")
}

// The need of an entry by its width and its suffix.
fn need_of<W: Write>(out: &mut W, width: u8, suffix: &[u8]) -> io::Result<()> {
    write!(out, "need {width} ")?;
    print_key(out, suffix)?;
    let Ok(n) = space::need(width, 0, suffix) else {
        return out.write_all(b" refused\n");
    };
    print_number(out, n)?;
    out.write_all(b"\n")
}

// The forecast from two fences: common prefix length, and space.
fn forecast_of<W: Write>(out: &mut W, lower: &[u8], upper: &[u8]) -> io::Result<()> {
    out.write_all(b"forecast ")?;
    print_key(out, lower)?;
    out.write_all(b" ")?;
    print_key(out, upper)?;
    let Ok(f) = space::forecast(lower, upper) else {
        return out.write_all(b" refused\n");
    };
    print_number(out, f.prefix_len as u64)?;
    print_number(out, f.space as u64)?;
    out.write_all(b"\n")
}

// Begins a page of height 0 with two fences. Where that is refused the page stays empty, and the next line shows it. The page is lent:
// one given back by value would take its room of the stack twice.
fn begin_page(page: &mut [u8], lower: &[u8], upper: &[u8], hints: bool) {
    let _ = begin::begin(page, 0, 0, lower, 0, upper, hints);
}

// A page begun with two fences: its end and its effective space.
fn begin_of<W: Write>(out: &mut W, lower: &[u8], upper: &[u8]) -> io::Result<()> {
    let mut page = [0u8; 16384];
    begin_page(&mut page, lower, upper, false);
    out.write_all(b"begin ")?;
    print_key(out, lower)?;
    out.write_all(b" ")?;
    print_key(out, upper)?;
    print_end(out, &page)?;
    out.write_all(b"\n")
}

// Keys of four bytes filed at width 8 on a page without fences until one is refused: which one is, and the number that it gets.
fn fill_page<W: Write>(out: &mut W) -> io::Result<()> {
    let mut page = [0u8; 16384];
    begin_page(&mut page, b"", b"", false);
    let mut tried = 0;
    let mut filed = Ok(0);
    for i in 0..2000 {
        filed = file_next(&mut page, i);
        tried = i + 1;
        if filed.is_err() {
            break;
        }
    }
    let number = answer::tell(filed).number;
    write!(out, "fill {tried} {number}\n")
}

// Files the key that is `i` as four bytes, with the value `i`; answers its slot number.
fn file_next(page: &mut [u8], i: u32) -> Result<usize, Refusal> {
    insert::insert(page, 8, &i.to_le_bytes(), u64::from(i))
}

// As many keys filed on a page with the hints flag: whether hints are in use, and the first hint.
fn hints_of<W: Write>(out: &mut W, count: u32) -> io::Result<()> {
    let mut page = [0u8; 16384];
    begin_page(&mut page, b"", b"", true);
    for i in 0..count {
        let _ = file_next(&mut page, i);
    }
    let h = header::read_header(&page);
    out.write_all(b"hints")?;
    print_number(out, h.count as u64)?;
    print_yes(out, hints::in_use(h.flag, h.count))?;
    let hint = number::read_u32(&page, 64);
    write!(out, " {hint:08x}\n")
}

// "parcel" at width 8 changed to another key: end and effective space before and after.
fn change_of<W: Write>(out: &mut W, key: &[u8]) -> io::Result<()> {
    let mut page = [0u8; 16384];
    begin_page(&mut page, b"", b"", false);
    let _ = insert::insert(&mut page, 8, b"parcel", 2);
    out.write_all(b"change ")?;
    print_key(out, b"parcel")?;
    print_end(out, &page)?;
    out.write_all(b" ")?;
    print_key(out, key)?;
    let _ = change::change_key(&mut page, 8, 0, key);
    print_end(out, &page)?;
    out.write_all(b"\n")
}

// Blank and end, blank and effective space, of a page.
fn print_end<W: Write>(out: &mut W, page: &[u8]) -> io::Result<()> {
    let Ok(s) = space::space_numbers(page) else {
        return out.write_all(b" refused");
    };
    print_number(out, s.end)?;
    print_number(out, s.effective)
}

// A blank, and 1 for yes or 0 for no.
fn print_yes<W: Write>(out: &mut W, yes: bool) -> io::Result<()> {
    print_number(out, u64::from(yes))
}

// A blank and a number in decimal.
fn print_number<W: Write>(out: &mut W, n: u64) -> io::Result<()> {
    write!(out, " {n}")
}

// A key in hex, "-" if it is empty.
fn print_key<W: Write>(out: &mut W, key: &[u8]) -> io::Result<()> {
    if key.is_empty() {
        out.write_all(b"-")?;
    }
    for &byte in key {
        write!(out, "{byte:02x}")?;
    }
    Ok(())
}
