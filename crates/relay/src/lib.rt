// The line program over an input and an output: lines come from one, and the replies go to the other.
// No contract can say what is read and written there: what is read is answered by `lines`, `pass_block` says that all of a block is,
// and `answer_all` that the blocks are one text.
#![tactic(auto)]

mod endings;

ghost use Rattle.std.specs.Prelude.{◌≡◌, ◌≤◌, length};
ghost use Rattle.names.specs.Lists.{NameLists};
ghost use Rattle.descriptors.specs.Writes.{Reached};
ghost use Rattle.relay.specs.Passing.{Passing};
ghost use Rattle.relay.specs.Relayed.{Relaying, Relayed, Transcribed};
ghost use Rattle.relay.specs.Fitness.{Unfit};
ghost use Rattle.answers.specs.ReplyLength.{reply_room};

use descriptors::file::read_file;
use descriptors::read::{bytes_read, read_some};
use descriptors::told::Tell;
use descriptors::write::{is_complete, send};
use descriptors::{Next, Reading, Writing};
pub use endings::status_of;
use endings::{ending_of, last_of};
use lines::stream::{end, feed, start};
use responder::replies::REPLY_ROOM;
use std::io::{Read, Write};
use std::num::wrapping_add_usize;
use std::rt::{Clock, Files};
use streams::Feed;

// The room for a list of names.
const LIST_ROOM: usize = 65536;

// What a block leaves: the state, the number of bytes answered, the number of bytes reported written, and what comes next.
#[derive(Clone, Copy)]
struct Passed {
    pub feed: Feed,
    pub taken: usize,
    pub sent: usize,
    pub next: Next,
}

// What a run leaves: the state, the number of bytes reported read, the number reported written, the last read, and what comes next.
#[derive(Clone, Copy)]
struct Run {
    pub feed: Feed,
    pub received: usize,
    pub sent: usize,
    pub last: Reading,
    pub next: Next,
}

// How the lines of an input ended: all read and all replies written; the output closed by its reader; a read or write failed,
// which was told on standard error; or nothing done, for want of room in the lent slices.
#[derive(Clone, Copy)]
pub enum Ending {
    Complete,
    Closed,
    Failed,
    Refused,
}

// What became of an input: how its lines ended, the number of bytes reported read, and the number reported written.
#[derive(Clone, Copy)]
pub struct Answered {
    pub ending: Ending,
    pub received: usize,
    pub sent: usize,
}

// Answers a block: what the output holds is written before more of the block is answered.
fn pass_block<'a, H: Clock + Tell, W: Write>(
    rt: &H,
    state: Feed,
    block: &[u8],
    site: &'a [u8],
    house: &'a [u8],
    output: &mut W,
    out: &mut [u8],
) -> Passed
    requires { reply_room ≤ length out.old }
    ensures { Passing (record { site = site.now; house = house.now }) state block.now result }
{
    let mut current = state;
    let mut taken = 0;
    let mut sent = 0;
    // Form: a turn goes on by as many bytes as `feed` took, so no `for` fits.
    while taken < block.len() {
        let fed = feed(current, &block[taken..], site, house, out);
        current = fed.feed;
        taken += fed.taken;
        let n = fed.written;
        let written = send(rt, output, &out[..n]);
        sent = wrapping_add_usize(sent, written.done);
        if !is_complete(written.next) {
            return Passed {
                feed: current,
                taken,
                sent,
                next: written.next,
            };
        }
    }
    Passed {
        feed: current,
        taken,
        sent,
        next: Next::Complete,
    }
}

// Writes the first n bytes of a text.
fn send_first<H: Clock + Tell, W: Write>(rt: &H, output: &mut W, text: &[u8], n: usize) -> Writing
    requires { n ≤ length text.now }
    ensures { Reached n result }
{
    send(rt, output, &text[..n])
}

// A run that leaves these.
// Form: its clause names every field of a run, `last` too, of which the clause of `answer_blocks` says nothing.
fn run_of(feed: Feed, received: usize, sent: usize, last: Reading, next: Next) -> Run
    ensures { result ≡ record { feed = feed; received = received; sent = sent; last = last; next = next } }
{
    Run {
        feed,
        received,
        sent,
        last,
        next,
    }
}

// Answers what is read, block by block, until a read has nothing more or a write is not complete.
// Form: the two lists stay two parameters, as in `feed` and the public calls: a struct that is made of them here is no plainer.
fn answer_blocks<'a, H: Clock + Tell, R: Read, W: Write>(
    rt: &H,
    input: &mut R,
    output: &mut W,
    site: &'a [u8],
    house: &'a [u8],
    block: &mut [u8],
    out: &mut [u8],
) -> Run
    requires { reply_room ≤ length out.old }
    ensures { Relaying (record { site = site.now; house = house.now }) result }
{
    let mut feed = start();
    let mut received = 0;
    let mut sent = 0;
    let mut last = Reading::Again;
    for _ in 0..u64::MAX {
        last = read_some(rt, input, block);
        let n = bytes_read(last);
        if n == 0 {
            break;
        }
        let passed = pass_block(rt, feed, &block[..n], site, house, output, out);
        feed = passed.feed;
        received = wrapping_add_usize(received, n);
        sent = wrapping_add_usize(sent, passed.sent);
        if !is_complete(passed.next) {
            return run_of(feed, received, sent, last, passed.next);
        }
    }
    run_of(feed, received, sent, last, Next::Complete)
}

// Answers what is read, and then the end of the input.
fn answer_all<'a, H: Clock + Tell, R: Read, W: Write>(
    rt: &H,
    input: &mut R,
    output: &mut W,
    site: &'a [u8],
    house: &'a [u8],
    block: &mut [u8],
    out: &mut [u8],
) -> Run
    requires { reply_room ≤ length out.old }
    ensures { Relayed (record { site = site.now; house = house.now }) result }
{
    let run = answer_blocks(rt, input, output, site, house, block, out);
    if !is_complete(run.next) {
        return run;
    }
    let reply = end(run.feed);
    let written = send_first(rt, output, &reply.text, reply.length);
    Run {
        sent: wrapping_add_usize(run.sent, written.done),
        next: last_of(run.last, written.next),
        ..run
    }
}

// Answers the lines that come from the input, a session of their own, until it ends, or a read or write fails. Names are looked
// up in the site's list and the house's.
// A block without a byte is refused, and so is an output without room for a reply: neither is used then.
#[tactic(auto, using(crate::proofs::Completed::not_refused), unfolding(answers::specs::ReplyLength::reply_room))]
pub fn answer_input<'a, H: Clock + Tell, R: Read, W: Write>(
    rt: &H,
    input: &mut R,
    output: &mut W,
    site: &'a [u8],
    house: &'a [u8],
    block: &mut [u8],
    out: &mut [u8],
) -> Answered
    ensures refused { Unfit block.old out.old → result.ending ≡ Ending.Refused }
    ensures fit { result.ending ≡ Ending.Refused → Unfit block.old out.old }
    ensures nothing { Unfit block.old out.old → (result.received ≡ 0) × (result.sent ≡ 0) }
    ensures unused { Unfit block.old out.old → (block.new ≡ block.old) × (out.new ≡ out.old) }
    ensures complete { result.ending ≡ Ending.Complete → Transcribed (record { site = site.now; house = house.now }) result }
{
    if block.is_empty() || out.len() < REPLY_ROOM {
        return Answered {
            ending: Ending::Refused,
            received: 0,
            sent: 0,
        };
    }
    let run = answer_all(rt, input, output, site, house, block, out);
    Answered {
        ending: ending_of(run.next),
        received: run.received,
        sent: run.sent,
    }
}

// Answers the lines that come from the input, with names from the lists of two files, once both are read: what keeps one from being
// read is told on standard error, and then no line is answered.
pub fn answer_with_files<H: Files + Clock + Tell, R: Read, W: Write>(
    rt: &H,
    input: &mut R,
    output: &mut W,
    site_path: &[u8],
    house_path: &[u8],
    block: &mut [u8],
    out: &mut [u8],
) -> Ending
    ensures { result ≡ Ending.Refused → Unfit block.old out.old }
{
    let mut site = [0u8; LIST_ROOM];
    let Ok(n) = read_file(rt, site_path, &mut site) else {
        return Ending::Failed;
    };
    let mut house = [0u8; LIST_ROOM];
    let Ok(m) = read_file(rt, house_path, &mut house) else {
        return Ending::Failed;
    };
    answer_input(rt, input, output, &site[..n], &house[..m], block, out).ending
}
