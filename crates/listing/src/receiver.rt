// Where the pieces of a text go: to a writer, or into sums that stand for the text.
ghost use Rattle.std.specs.Prelude.{◌≡◌, ℕ, List, [], ◌++◌, OnOk, OnErr, refl};
ghost use Rattle.std.specs.Io.KnownBytes.{Appends};
ghost use Rattle.listing.specs.Sums.{Stopped};
ghost use Rattle.listing.specs.Summed.{one_more, summed};
ghost use Rattle.listing.specs.Laws.{summed-nil, summed-append, stopped-grown, stopped-after};
ghost use Rattle.std.proofs.KnownBytes.{Appends-nil, Appends-trans};
ghost use Rattle.std.proofs.Common.{◌∙◌};

use std::io;
use std::io::Write;

// Takes a text piece by piece.
pub(crate) trait Receiver {
    // What a receiver becomes that takes a text, and what is left of one that fails at it.
    ghost takes: { Self → List ℕ → Self → Type 0 };

    ghost stops: { Self → List ℕ → Self → Type 0 };

    // Takes a piece. An error says that not all of it was taken.
    fn take(&mut self, piece: &[u8]) -> io::Result<()>
        ensures ok { OnOk result (takes self.old piece.now self.new) }
        ensures left { OnErr result (stops self.old piece.now self.new) };

    // One text and then another are one text.
    ghost takes_none: { (a : Self) → takes a [] a };

    ghost takes_more: { (a b c : Self) (l k : List ℕ) → takes a l b → takes b k c → takes a (l ++ k) c };

    ghost stops_within: { (a b : Self) (l k : List ℕ) → stops a l b → stops a (l ++ k) b };

    ghost stops_after: { (a b c : Self) (l k : List ℕ) → takes a l b → stops b k c → stops a (l ++ k) c };
}

// A writer, to which the text is printed. A piece that fails leaves a front of it there.
#[derive(Drop)]
pub(crate) struct Printer<'a, W> {
    pub(crate) to: &'a mut W,
}

impl<'a, W: Write> Receiver for Printer<'a, W> {
    ghost takes = { λ a l b. (b.to.ghost_name ≡ a.to.ghost_name) × Appends (W.contents a.to.now) (W.contents b.to.now) l };

    ghost stops = { λ a l b. (b.to.ghost_name ≡ a.to.ghost_name) × Stopped (W.contents a.to.now) (W.contents b.to.now) l };

    fn take(&mut self, piece: &[u8]) -> io::Result<()> {
        write_piece(self.to, piece)
    }

    ghost takes_none = { λ a. (refl, Appends-nil _) };

    ghost takes_more = { λ a b c l k f g. (g.0 ∙ f.0, Appends-trans _ _ _ l k f.1 g.1) };

    ghost stops_within = { λ a b l k f. (f.0, stopped-grown _ _ l k f.1) };

    ghost stops_after = { λ a b c l k f g. (g.0 ∙ f.0, stopped-after _ _ _ l k f.1 g.1) };
}

// Writes all of a piece, as `write_all` does; a failure leaves a front of it behind what the writer held. The loop is written here
// since the contract of `write_all` says nothing after an error.
fn write_piece<W: Write>(to: &mut W, piece: &[u8]) -> io::Result<()>
    ensures ok { OnOk result (Appends (W.contents to.old) (W.contents to.new) piece.now) }
    ensures left { OnErr result (Stopped (W.contents to.old) (W.contents to.new) piece.now) }
{
    let mut rest = piece;
    for _ in 0..u64::MAX {
        if rest.is_empty() {
            return Ok(());
        }
        match to.write(rest) {
            Ok(0) => return Err(io::Error::from(io::ErrorKind::WriteZero)),
            Ok(n) => rest = &rest[n..],
            Err(e) if e.kind() == io::ErrorKind::Interrupted => {}
            Err(e) => return Err(e),
        }
    }
    Err(io::Error::from(io::ErrorKind::Interrupted))
}

// Two sums over the bytes of a text, and how many there were modulo 2^32. They take any text.
#[derive(Clone, Copy, Default)]
pub(crate) struct Sums {
    pub(crate) h1: u32,
    pub(crate) h2: u32,
    pub(crate) len: u32,
}

impl Sums {
    // One byte more.
    fn add(self, x: u8) -> Self
        ensures { result ≡ one_more self x }
    {
        Sums {
            h1: ((31 * self.h1 as u64 + x as u64 + 1) % 4294967291) as u32,
            h2: ((37 * self.h2 as u64 + x as u64 + 1) % 4294967279) as u32,
            len: self.len.wrapping_add(1),
        }
    }
}

impl Receiver for Sums {
    ghost takes = { λ a l b. b ≡ summed a l };

    ghost stops = { λ a l b. ⊥ };

    fn take(&mut self, piece: &[u8]) -> io::Result<()> {
        *self = piece.iter().fold(*self, |sums, x| sums.add(*x));
        Ok(())
    }

    ghost takes_none = { λ a. summed-nil a };

    ghost takes_more = { λ a b c l k f g. summed-append a b c l k f g };

    ghost stops_within = { λ a b l k f. f };

    ghost stops_after = { λ a b c l k f g. g };
}
