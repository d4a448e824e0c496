// The same 240 records filed in several orders on pages that were alike, at every width, with hints and without, with short keys
// and with long ones: one line for each case, which tells whether listing and header agree in all orders (1) or not (0), whether
// a batch agrees, and whether find and a scan agree.
#![tactic(auto)]

mod agree;
mod pages;
mod records;

use crate::records::{Case, Order};
use std::io;
use std::io::Write;

// What two pages agree in.
#[derive(Clone, Copy)]
struct Agreed {
    listing: bool,
    header: bool,
}

fn main(rt: HostRuntime) -> io::Result<()> {
    let mut out = rt.stdout();
    cases_of(&mut out, 0)?;
    cases_of(&mut out, 1)?;
    cases_of(&mut out, 8)
}

// The cases of a width.
fn cases_of<W: Write>(out: &mut W, width: u8) -> io::Result<()> {
    for hints in [false, true] {
        for long in [false, true] {
            print_case(out, Case { width, hints, long })?;
        }
    }
    Ok(())
}

// A case: the page of rising records, and what agrees with it.
fn print_case<W: Write>(out: &mut W, case: Case) -> io::Result<()> {
    let mut first = [165u8; 16384];
    let filed = pages::file_order(&mut first, case, Order::Rising);
    print_filed(out, case, filed)?;
    let orders = hold_orders(&first, case);
    print_yes(out, b", listings agree ", orders.listing)?;
    print_yes(out, b", headers agree ", orders.header)?;
    print_yes(out, b", batch agrees ", hold_batch(&first, case))?;
    print_yes(out, b", finds agree ", agree::finds_agree(&first, case))?;
    out.write_all(b"\n")
}

// What the pages of the three other orders all agree in with the first page.
fn hold_orders(first: &[u8], case: Case) -> Agreed {
    let falling = hold_order(first, case, Order::Falling);
    let strides = hold_order(first, case, Order::Strides);
    let odd = hold_order(first, case, Order::OddFirst);
    Agreed {
        listing: falling.listing && strides.listing && odd.listing,
        header: falling.header && strides.header && odd.header,
    }
}

// What the page of another order agrees in with the first page.
fn hold_order(first: &[u8], case: Case, order: Order) -> Agreed {
    let mut page = [165u8; 16384];
    pages::file_order(&mut page, case, order);
    Agreed {
        listing: agree::listings_agree(first, &page, case.width),
        header: agree::headers_agree(first, &page),
    }
}

// Whether a batch in another order files all records, and its page agrees with the first page in listing and header.
fn hold_batch(first: &[u8], case: Case) -> bool {
    let mut page = [165u8; 16384];
    let filed = pages::file_at_once(&mut page, case);
    filed == 240
        && agree::listings_agree(first, &page, case.width)
        && agree::headers_agree(first, &page)
}

// The case, and how many records were filed.
fn print_filed<W: Write>(out: &mut W, case: Case, filed: usize) -> io::Result<()> {
    let width = case.width;
    write!(out, "width {width}")?;
    print_yes(out, b" hints ", case.hints)?;
    print_yes(out, b" long ", case.long)?;
    write!(out, ": {filed} filed")
}

// A text, and 1 for yes or 0 for no.
fn print_yes<W: Write>(out: &mut W, text: &[u8], yes: bool) -> io::Result<()> {
    out.write_all(text)?;
    let digit = u8::from(yes);
    write!(out, "{digit}")
}
