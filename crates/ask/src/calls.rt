// The calls: each is carried out and its answer made a reply.
ghost use Rattle.std.specs.Prelude.{◌≤◌, length};

use crate::call::Call;
use crate::registers::Registers;
use crate::run::{ROOM, Run};
use crate::wire;
use crate::wire::{Broken, Failure, Reply, Request};
use child::lookup;
use dorgumanna::answer;
use edit::{begin, change, copy, insert, set};
use filing::batch;
use filing::batch::NotFiled;
use node::{key, space, trailing};
use paper::answers::Space;
use paper::refusal::Refusal;
use search::{bound, compare, find};
use std::io::Read;
use verdict::{fit, layout};
use view::entry;

// The registers, and the two runs of the request that is answered.
#[derive(Drop)]
pub(crate) struct Conversation {
    registers: Registers,
    first: Run,
    second: Run,
}

impl Conversation {
    // Registers and runs of no bytes.
    pub(crate) fn new() -> Self {
        Conversation {
            registers: Registers::new(),
            first: Run::new(),
            second: Run::new(),
        }
    }

    // Reads the next request with its runs; none where the input ends.
    pub(crate) fn receive<R: Read>(&mut self, input: &mut R) -> Result<Option<Request>, Failure> {
        wire::receive(input, &mut self.first, &mut self.second)
    }

    // Answers the request that was received last.
    // One arm for each call: each has arguments and an answer of its own, so that closures would be the same lines.
    pub(crate) fn answer(&mut self, q: Request) -> Result<Reply<'_>, Broken> {
        let Conversation {
            registers,
            first,
            second,
        } = self;
        let first = first.content();
        let (page, width, i) = (q.page, q.width, q.a as usize);
        Ok(match q.call {
            Call::Load => {
                registers.load(page?, first);
                Reply::done(0)
            }
            Call::Dump => Reply::done(0).with(registers.page(page?)),
            Call::Begin => begin(registers.page_mut(page?), first, second.content(), q)?,
            Call::Insert => insert::insert(registers.page_mut(page?), width, first, q.a).into(),
            Call::SetValue => set::set_value(
                registers.page_mut(page?),
                width,
                first,
                q.a,
                q.b,
            ).into(),
            Call::ChangeKey => change::change_key(
                registers.page_mut(page?),
                width,
                i,
                first,
            ).into(),
            Call::RunCopy => copy_run(registers, second, q)?,
            Call::Find => find::find(registers.page(page?), width, first).into(),
            Call::LowerBound => bound::lower_bound(registers.page(page?), width, first).into(),
            Call::UpperBound => bound::upper_bound(registers.page(page?), width, first).into(),
            Call::Compare => compare::compare_slot(registers.page(page?), width, i, first).into(),
            Call::Child => lookup::child(registers.page(page?), first).into(),
            Call::Entry => show_entry(registers.page(page?), width, i, second.room()),
            Call::KeyCopy => copy_key(registers.page(page?), width, i, second.content_mut()),
            Call::TrailingId => trailing::trailing_id(registers.page(page?), width, i).into(),
            Call::Space => show_space(registers.page(page?), second),
            Call::Need => space::need(width, i, first).into(),
            Call::Forecast => space::forecast(first, second.content()).into(),
            Call::Layout => layout::layout_verdict(registers.page(page?), width).into(),
            Call::Fit => fit::fit_verdict(registers.page(page?), width).into(),
            Call::Batch => file_batch(registers.page_mut(page?), width, first)?,
            Call::Digest => Reply::done(digest(registers.page(page?))),
        })
    }
}

// Begin: a height above 65,535 and a flag above 1 cannot be carried to the call.
fn begin<'a>(page: &mut [u8], lower: &[u8], upper: &[u8], q: Request) -> Result<Reply<'a>, Broken> {
    let height = u16::try_from(q.a).or(Err(Broken))?;
    let hinted = match q.width {
        0 => false,
        1 => true,
        _ => return Err(Broken),
    };
    Ok(begin::begin(page, height, q.b, lower, q.c, upper, hinted).into())
}

// Run copy: the source goes through `room`, so that the destination alone is lent from the registers. Two registers that
// are one cannot be carried to the call.
fn copy_run<'a>(
    registers: &mut Registers,
    room: &mut Run,
    q: Request,
) -> Result<Reply<'a>, Broken> {
    let to = q.page?;
    let from = q.other?;
    if from == to {
        return Err(Broken);
    }
    room.load(registers.page(from));
    let page = registers.page_mut(to);
    Ok(copy::copy_run(page, room.content(), q.width, q.a as usize, q.b as usize).into())
}

// Batch: a buffer that ends inside a record cannot be carried to the call.
fn file_batch<'a>(page: &mut [u8], width: u8, records: &[u8]) -> Result<Reply<'a>, Broken> {
    match batch::file_batch(page, width, records) {
        Err(NotFiled::Cut) => Err(Broken),
        filed => Ok(answer::batched(filed).into()),
    }
}

// Entry: its value, and its key by way of `out`.
#[tactic(auto, unfolding(view::specs::Entries::shown_entry, paper::specs::Calls::copy_checks, paper::specs::Refusals::judge))]
fn show_entry<'a>(page: &[u8], width: u8, i: usize, out: &'a mut [u8]) -> Reply<'a>
    requires { length out.old ≤ ROOM }
{
    match entry::entry(page, width, i, out) {
        Ok(e) => Reply::done(e.value).with(&out[..e.key_len]),
        Err(r) => r.into(),
    }
}

// Key copy: the key's length, and the lent buffer whole.
fn copy_key<'a>(page: &[u8], width: u8, i: usize, out: &'a mut [u8]) -> Reply<'a>
    requires { length out.old ≤ ROOM }
{
    let copied = key::copy_key(page, width, i, out);
    Reply::from(copied).with(out)
}

// The space numbers, by way of `out`.
fn show_space<'a>(page: &[u8], out: &'a mut Run) -> Reply<'a> {
    match space::space_numbers(page) {
        Ok(s) => {
            out.load(&space_bytes(s));
            Reply::done(0).with(out.content())
        }
        Err(r) => r.into(),
    }
}

// Seven numbers of eight bytes each.
fn space_bytes(s: Space) -> [u8; 56] {
    let numbers = [
        s.start,
        s.end,
        s.free,
        s.used,
        s.effective,
        s.reclaimable,
        s.compacted,
    ];
    let mut bytes = [0u8; 56];
    for (place, n) in bytes.chunks_exact_mut(8).zip(numbers) {
        place.copy_from_slice(&n.to_le_bytes());
    }
    bytes
}

// Two sums over all bytes, the first in the upper 32 bits and the second in the lower.
// The listing sums a text alike, but only within its crate, and `ask` does not rest on that crate.
fn digest(bytes: &[u8]) -> u64 {
    let mut h1: u64 = 0;
    let mut h2: u64 = 0;
    for &byte in bytes {
        let x = u64::from(byte);
        h1 = (31 * h1 + x + 1) % 4294967291;
        h2 = (37 * h2 + x + 1) % 4294967279;
    }
    4294967296 * h1 + h2
}
