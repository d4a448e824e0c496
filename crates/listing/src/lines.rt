// The lines of the listing, each put behind a text.
ghost use Rattle.std.specs.Prelude.{◌+◌, ◌*◌, ◌≤◌, length};
ghost use Rattle.paper.specs.Printed.{hex_key, refused_line, entry_line};
ghost use Rattle.view.specs.Shown.{shown};
ghost use Rattle.listing.specs.Line.{Adds};
ghost use Rattle.listing.specs.Texts.{Wrote, verdict_text, space_text, sum_text};

use crate::sink::Sink;
use crate::text::Text;
use octets::runs;
use paper::page::Header;
use view::key::KeyView;

// The line of a refusal.
#[tactic(auto, using(crate::proofs::Decimals::lined), unfolding(paper::specs::Printed::refused_line))]
pub(crate) fn refused_line(text: &mut Text, n: u8)
    requires { 29 ≤ text.old.room }
    ensures { Adds text.old (refused_line n) text.new }
{
    text.word(b"refused");
    text.numbers(&[n as u64]);
}

// The line of the two verdicts.
#[tactic(auto, using(crate::proofs::Decimals::lined), unfolding(crate::specs::Texts::verdict_text))]
pub(crate) fn verdict_line(text: &mut Text, layout: bool, fit: u8)
    requires { 50 ≤ text.old.room }
    ensures { Adds text.old (verdict_text layout fit) text.new × (text.old.room ≤ text.new.room + 50) }
{
    text.word(b"verdict");
    text.numbers(&[u64::from(layout), u64::from(fit)]);
}

// The line of the space numbers.
#[tactic(auto, using(crate::proofs::Decimals::lined), unfolding(crate::specs::Texts::space_text))]
pub(crate) fn space_line(text: &mut Text, h: Header)
    requires { (111 ≤ text.old.room) × (h.start ≤ h.end) × (h.end ≤ 16352) × (h.effective + h.end ≤ 16352 + h.start) }
    ensures { Adds text.old (space_text h) text.new }
{
    let start = h.start as u64;
    let end = h.end as u64;
    let effective = h.effective as u64;
    let free = end - start;
    text.word(b"space");
    text.numbers(&[start, end, free, effective, 16352 - free - effective]);
}

// The line of a text's sums, written to `out` from `at` on; answers the place after it.
// It takes a place and no slice from there on: it is public, and its contract names the place.
#[tactic(auto, using(crate::proofs::Decimals::lined), unfolding(crate::specs::Texts::sum_text))]
pub fn sum_line(s: Sink, out: &mut [u8], at: usize) -> usize
    requires { at + 67 ≤ length out.old }
    ensures { Wrote out.old at (sum_text s) out.new result × (result ≤ at + 67) }
{
    let mut bytes = [0; 67];
    let mut text = Text::new(&mut bytes);
    text.word(b"sum");
    text.numbers(&[s.len, s.h1, s.h2]);
    let line = text.as_slice();
    runs::copy_in(out, at, line);
    at + line.len()
}

// A key in hex, prefix and suffix; "-" where both are empty.
#[tactic(auto, using(crate::proofs::Decimals::keyed))]
fn put_key(text: &mut Text, key: &KeyView)
    requires { 2 * length (shown key.now) + 1 ≤ text.old.room }
    ensures { Adds text.old (hex_key (shown key.now)) text.new × (text.old.room ≤ text.new.room + (2 * length (shown key.now) + 1)) }
{
    let suffix = key.shown_suffix();
    if key.prefix.len() + suffix.len() == 0 {
        text.push(b'-');
    } else {
        text.hex(key.prefix);
        text.hex(suffix);
    }
}

// The line of an entry: its number, its key and its value.
#[tactic(auto, using(crate::proofs::Decimals::lined))]
pub(crate) fn entry_line(text: &mut Text, i: usize, key: &KeyView, value: u64)
    requires { 2 * length (shown key.now) + 64 ≤ text.old.room }
    ensures { Adds text.old (entry_line i (record { key = shown key.now; value = value })) text.new }
{
    text.decimal(i as u64);
    text.push(b' ');
    put_key(text, key);
    text.numbers(&[value]);
}
