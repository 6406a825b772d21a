// A text in pieces, and its declared end; what does not fit the lent output is refused before anything is written.
ghost use Rattle.std.specs.Prelude.{false, ◌++◌, ◌≡◌, ◌+◌, ◌≤◌, ltb, length};
ghost use Rattle.names.specs.Lists.{NameLists};
ghost use Rattle.streams.specs.Stream.{NewlineFree, feed_state, feed_text};
ghost use Rattle.streams.specs.Feeds.{new_feed, refused_feed, feed_answer, feed_out, piece_of, piece_out, end_of, end_out};
ghost use Rattle.lines.specs.Passing.{Passed};

use crate::newlines::newline_in;
use crate::pieces::keep;
use crate::stream::{feed, line_start, start};
use crate::{Fed, stream};
use requests::{Answer, Refusal};
use responder::texts::put_bytes;
use streams::{Feed, PieceAnswered, PieceFeed};

// The answers of a piece that are made before any is written: those of most pieces are all made then.
const ANSWERS: usize = 4096;

// The state before the first piece.
#[tactic(auto, unfolding(streams::specs::Feeds::new_feed))]
pub fn new_feed() -> PieceFeed
    ensures { result ≡ new_feed }
{
    PieceFeed {
        feed: start(),
        ended: false,
    }
}

// A refusal: nothing is changed or written.
#[tactic(auto, unfolding(streams::specs::Feeds::refused_feed))]
fn refused(state: PieceFeed, refusal: Refusal) -> PieceAnswered
    ensures { result ≡ refused_feed state refusal }
{
    PieceAnswered {
        answer: Err(refusal),
        state,
        written: 0,
    }
}

// Whether the answers to a text are longer than the room: they are made in an array of our own, and only their lengths are used.
// Form: `pass` has this loop too, but writes and never stops: a closure for either is no plainer, since it has to promise what it leaves.
#[tactic(auto, unfolding(streams::specs::Stream::feed_text, answers::specs::ReplyLength::reply_room))]
fn too_long<'a>(state: Feed, text: &[u8], site: &'a [u8], house: &'a [u8], room: usize) -> bool
    ensures { result ≡ ltb room (length (feed_text (record { site = site.now; house = house.now }) state text.now)) }
{
    let mut next = state;
    let mut taken = 0;
    let mut left = room;
    // Form: a turn goes on by as many bytes as `feed` took, so no `for` fits.
    while taken < text.len() {
        let mut answers = [0u8; ANSWERS];
        let fed = feed(next, &text[taken..], site, house, &mut answers);
        if left < fed.written {
            return true;
        }
        left -= fed.written;
        next = fed.feed;
        taken += fed.taken;
    }
    false
}

// Takes all of a text, and writes the answers into an output that has room for them, from a place on.
#[tactic(auto, unfolding(streams::specs::Stream::feed_text, answers::specs::ReplyLength::reply_room))]
fn pass<'a>(
    state: Feed,
    text: &[u8],
    site: &'a [u8],
    house: &'a [u8],
    out: &mut [u8],
    at: usize,
) -> Fed
    requires { at + length (feed_text (record { site = site.now; house = house.now }) state text.now) ≤ length out.old }
    ensures { Passed (record { site = site.now; house = house.now }) state text.now out.old at out.new result }
{
    let mut next = state;
    let mut taken = 0;
    let mut written = at;
    // Form: a turn goes on by as many bytes as `feed` took, so no `for` fits.
    while taken < text.len() {
        let mut answers = [0u8; ANSWERS];
        let fed = feed(next, &text[taken..], site, house, &mut answers);
        written = put_bytes(out, written, &answers[..fed.written]);
        next = fed.feed;
        taken += fed.taken;
    }
    Fed {
        feed: next,
        taken,
        written,
    }
}

// What a piece without a newline leaves: it is kept, and nothing is answered.
fn unfinished(state: Feed, text: &[u8]) -> Feed
    requires { NewlineFree text.now }
    ensures { (n : NameLists) → result ≡ feed_state n state text.now }
{
    let mut kept = state.kept;
    let extent = keep(&mut kept, state.used, state.long, text);
    Feed {
        kept,
        used: extent.used,
        long: extent.long,
        ..state
    }
}

// A piece or end whose first answers are made: those to the rest of its text are counted, and only then is anything written.
fn deliver<'a>(
    state: PieceFeed,
    next: Feed,
    answers: &[u8],
    rest: &[u8],
    site: &'a [u8],
    house: &'a [u8],
    ended: bool,
    out: &mut [u8],
) -> PieceAnswered
    requires { state.ended ≡ false }
    ensures answer { result ≡ feed_answer state (answers.now ++ feed_text (record { site = site.now; house = house.now }) next rest.now) (record { feed = feed_state (record { site = site.now; house = house.now }) next rest.now; ended = ended }) (length out.old) }
    ensures output { out.new ≡ feed_out state (answers.now ++ feed_text (record { site = site.now; house = house.now }) next rest.now) out.old }
{
    if out.len() < answers.len() {
        return refused(state, Refusal::SliceTooShort);
    }
    let room = out.len() - answers.len();
    if too_long(next, rest, site, house, room) {
        return refused(state, Refusal::SliceTooShort);
    }
    let written = put_bytes(out, 0, answers);
    let passed = pass(next, rest, site, house, out, written);
    PieceAnswered {
        answer: Ok(()),
        state: PieceFeed {
            feed: passed.feed,
            ended,
        },
        written: passed.written,
    }
}

// Takes a piece of the text, and writes its answers at the start of the output. Names are looked up in the site's list and the house's.
// Where the answers fit an array of our own, they are made once; of longer ones all but the first are made twice.
#[tactic(auto, unfolding(streams::specs::Feeds::piece_of, streams::specs::Feeds::piece_out))]
pub fn piece<'a>(
    state: PieceFeed,
    text: &[u8],
    site: &'a [u8],
    house: &'a [u8],
    out: &mut [u8],
) -> PieceAnswered
    ensures answer { result ≡ piece_of (record { site = site.now; house = house.now }) state text.now (length out.old) }
    ensures output { out.new ≡ piece_out (record { site = site.now; house = house.now }) state text.now out.old }
{
    if state.ended {
        return refused(state, Refusal::CallOrder);
    }
    if newline_in(text).is_none() {
        return PieceAnswered {
            answer: Ok(()),
            state: PieceFeed {
                feed: unfinished(state.feed, text),
                ended: false,
            },
            written: 0,
        };
    }
    let mut answers = [0u8; ANSWERS];
    let fed = feed(state.feed, text, site, house, &mut answers);
    deliver(
        state,
        fed.feed,
        &answers[..fed.written],
        &text[fed.taken..],
        site,
        house,
        false,
        out,
    )
}

// Declares the end of the text, and writes the answer to an unfinished line at the start of the output.
#[tactic(auto, unfolding(streams::specs::Feeds::end_of, streams::specs::Feeds::end_out))]
pub fn end<'a>(state: PieceFeed, site: &'a [u8], house: &'a [u8], out: &mut [u8]) -> PieceAnswered
    ensures answer { result ≡ end_of state (length out.old) }
    ensures output { out.new ≡ end_out state out.old }
{
    if state.ended {
        return refused(state, Refusal::CallOrder);
    }
    let last = stream::end(state.feed);
    let next = line_start(last.session);
    let text = last.text;
    deliver(
        state,
        next,
        &text[..last.length],
        b"",
        site,
        house,
        true,
        out,
    )
}
