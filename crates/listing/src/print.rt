// What the listing program prints for an input: the verdicts, the space numbers and the entries. An error of any function here
// is the writer's: none comes where the text is summed.
ghost use Rattle.std.specs.Prelude.{◌≡◌, ◌+◌, ◌≤◌, true, length, IfOk, IfErr, OnOk, OnErr};
ghost use Rattle.std.specs.Io.KnownBytes.{Appends};
ghost use Rattle.paper.specs.Calls.{is_width};
ghost use Rattle.paper.specs.Verdicts.{fit_of, layout_of};
ghost use Rattle.paper.specs.Printed.{page_text, refused_line, printed};
ghost use Rattle.listing.specs.Texts.{lines_text};
ghost use Rattle.listing.specs.Pieces.{Listable};
ghost use Rattle.listing.specs.Inputs.{number_of};
ghost use Rattle.listing.specs.Line.{Fresh};
ghost use Rattle.listing.specs.Sums.{begun, told, shown, Stopped};

use crate::lines;
use crate::receiver::{Printer, Receiver, Sums};
use crate::sink::{Mode, Sink};
use crate::text::Text;
use node::{admit, entry, header};
use octets::value;
use paper::page::Header;
use std::io;
use std::io::Write;
use verdict::{fit, layout};
use view::key::KeyView;

// Prints what the input asks for, a width byte and a page (mode 0), or sums it up (any other mode).
#[tactic(auto, using(crate::proofs::Telling::moded))]
pub fn print<W: Write>(to: &mut W, input: &[u8], mode: u8) -> io::Result<Sink>
    ensures ok { IfOk result (λ s. s ≡ told (begun mode) (printed input.now)) }
    ensures bytes { OnOk result (Appends (W.contents to.old) (W.contents to.new) (shown mode (printed input.now))) }
    ensures err { OnErr result (mode ≡ 0) }
    ensures left { OnErr result (Stopped (W.contents to.old) (W.contents to.new) (shown mode (printed input.now))) }
{
    let mut sums = Sums::default();
    match Mode::from(mode) {
        Mode::Printed => print_input(&mut Printer { to }, input)?,
        Mode::Summed => print_input(&mut sums, input)?,
    }
    // No `From`: a sink has a mode, which sums do not know.
    Ok(Sink {
        mode,
        h1: u64::from(sums.h1),
        h2: u64::from(sums.h2),
        len: u64::from(sums.len),
    })
}

// Tells a receiver what is printed for an input.
#[tactic(auto, using(crate::proofs::Writing::adds_first))]
fn print_input<T: Receiver>(to: &mut T, input: &[u8]) -> io::Result<()>
    ensures ok { OnOk result (T.takes to.old (printed input.now) to.new) }
    ensures left { OnErr result (T.stops to.old (printed input.now) to.new) }
{
    let mut bytes = [0; 131072];
    let mut text = Text::new(&mut bytes);
    match page_of(input) {
        Ok(page) => {
            let layout = layout::layout_verdict(page.bytes, page.width).unwrap_or(false);
            let fit = fit::fit_verdict(page.bytes, page.width).unwrap_or(0);
            page.print_page(to, layout, fit, &mut text)
        }
        Err(refused) => {
            lines::refused_line(&mut text, refused.number());
            to.take(text.as_slice())
        }
    }
}

// A page and the width of its values.
#[derive(Clone, Copy)]
struct Page<'a> {
    bytes: &'a [u8],
    width: u8,
    ghost whole: { length bytes.now ≡ 16384 },
    ghost known: { is_width width ≡ true },
}

// Why an input is refused: it is no width byte and page, or its width is bad.
// Not `Refusal`: the numbers of its cases are told by `dorgumanna`, on which the listing does not rest.
#[derive(Clone, Copy)]
enum Refused {
    Length = 1,
    Width = 2,
}

impl Refused {
    // What the line of the refusal shows.
    fn number(self) -> u8
        ensures { result ≡ number_of self }
    {
        self as u8
    }
}

// The page of an input, or why the input is refused.
#[tactic(auto, using(crate::proofs::Joined::inputs))]
fn page_of(input: &[u8]) -> Result<Page<'_>, Refused>
    ensures ok { IfOk result (λ page. page_text page.width page.bytes.now ≡ printed input.now) }
    ensures err { IfErr result (λ r. refused_line (number_of r) ≡ printed input.now) }
{
    match input {
        [width, bytes @ ..] if bytes.len() == 16384 => {
            let width = *width;
            if admit::known_width(width) {
                Ok(Page { bytes, width })
            } else {
                Err(Refused::Width)
            }
        }
        _ => Err(Refused::Length),
    }
}

// A receiver and the text for it are handed over side by side: of a struct of both each method would have to say that its two
// references are still the same.
impl Page<'_> {
    // Tells the page by its verdicts. Nothing follows the first line if the page is not fit.
    #[tactic(auto, using(crate::proofs::Joined::paged))]
    fn print_page<T: Receiver>(
        &self,
        to: &mut T,
        layout: bool,
        fit: u8,
        text: &mut Text,
    ) -> io::Result<()>
        requires { (layout ≡ layout_of self.now.width self.now.bytes.now) × (fit ≡ fit_of self.now.width self.now.bytes.now) × Fresh text.old 131072 }
        ensures ok { OnOk result (T.takes to.old (page_text self.now.width self.now.bytes.now) to.new) }
        ensures left { OnErr result (T.stops to.old (page_text self.now.width self.now.bytes.now) to.new) }
    {
        lines::verdict_line(text, layout, fit);
        if 0 < fit {
            return to.take(text.as_slice());
        }
        let h = header::read_header(self.bytes);
        lines::space_line(text, h);
        to.take(text.as_slice())?;
        self.print_entries(to, h, text)
    }

    // Tells the lines of all entries, as many at a time as the text has room for: none is longer than 65,100 bytes.
    #[tactic(auto, using(crate::proofs::Joined::listed))]
    fn print_entries<T: Receiver>(&self, to: &mut T, h: Header, text: &mut Text) -> io::Result<()>
        requires { Listable self.now.width self.now.bytes.now h.count h.prefix_len × (65100 ≤ length text.old.text + text.old.room) }
        ensures ok { OnOk result (T.takes to.old (lines_text self.now.width self.now.bytes.now h.prefix_len 0 h.count) to.new) }
        ensures left { OnErr result (T.stops to.old (lines_text self.now.width self.now.bytes.now h.prefix_len 0 h.count) to.new) }
    {
        text.clear();
        for i in 0..h.count as usize {
            if text.room() < 65100 {
                to.take(text.as_slice())?;
                text.clear();
            }
            let slot = header::read_slot(self.bytes, 96 + 8 * i);
            let key = KeyView::new(self.bytes, h.prefix_len, slot);
            let value = value::read_value(self.bytes, entry::value_at(slot), self.width as usize);
            lines::entry_line(text, i, &key, value);
        }
        to.take(text.as_slice())
    }
}
