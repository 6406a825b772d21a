// The line program over blocks of input.
ghost use Rattle.std.specs.Prelude.{◌≡◌, length};
ghost use Rattle.names.specs.Lists.{NameLists};
ghost use Rattle.queue_rows.specs.Heads.{session_in};
ghost use Rattle.responder.specs.Written.{in_array};
ghost use Rattle.streams.specs.Stream.{line_start, feed_start, end_reply};
ghost use Rattle.lines.specs.Pieces.{state_of};
ghost use Rattle.lines.specs.Blocks.{fed_of, fed_out};

use crate::Fed;
use crate::newlines::newline_in;
use crate::pieces::{begun, keep, parse_ended};
use planner::open::new_session;
use queue_rows::packing::{pack, unpack};
use queue_rows::{Head, QUEUE_NUMBERS};
use responder::LineReply;
use responder::replies::{REPLY_ROOM, reply};
use sessions::{QUEUE_LIMIT, Session};
use streams::{Feed, LONGEST};

// The state at the beginning of a line.
#[tactic(auto, unfolding(streams::specs::Stream::line_start, grammar::specs::Parse::longest))]
pub fn line_start(session: Session) -> Feed
    ensures { result ≡ line_start session }
{
    Feed {
        session,
        kept: [0u8; LONGEST],
        used: 0,
        long: false,
    }
}

// The state at the beginning of the input.
#[tactic(auto, unfolding(streams::specs::Stream::feed_start))]
pub fn start() -> Feed
    ensures { result ≡ feed_start }
{
    line_start(new_session())
}

// What a block leaves, of its parts.
fn fed(
    head: Head,
    ids: &[u64; QUEUE_LIMIT],
    rows: &[u64; QUEUE_NUMBERS],
    kept: [u8; LONGEST],
    used: usize,
    long: bool,
    taken: usize,
    written: usize,
) -> Fed
    ensures { result ≡ record { feed = state_of (session_in head ids.now rows.now) kept used long; taken = taken; written = written } }
{
    let session = unpack(head, ids, rows);
    Fed {
        feed: Feed {
            session,
            kept,
            used,
            long,
        },
        taken,
        written,
    }
}

// Takes bytes of a block while the output has room for any reply, and writes the replies. Names are looked up in the site's
// list and the house's.
// The parts of the state are locals, since a struct is copied whole wherever it is handed on, and the queue lies in arrays that the replies
// change in place: it is packed once for a block.
#[tactic(auto, unfolding(answers::specs::ReplyLength::reply_room, streams::specs::Stream::line_start, grammar::specs::Parse::longest, responder::specs::Written::left_in, queue_rows::specs::Heads::session_in))]
pub fn feed<'a>(feed: Feed, block: &[u8], site: &'a [u8], house: &'a [u8], out: &mut [u8]) -> Fed
    ensures answer { result ≡ fed_of (record { site = site.now; house = house.now }) feed block.now (length out.old) }
    ensures output { out.new ≡ fed_out (record { site = site.now; house = house.now }) feed block.now out.old }
{
    let mut ids: [u64; QUEUE_LIMIT] = [0; QUEUE_LIMIT];
    let mut rows: [u64; QUEUE_NUMBERS] = [0; QUEUE_NUMBERS];
    let mut head = pack(feed.session, &mut ids, &mut rows);
    let mut kept = feed.kept;
    let mut used = feed.used;
    let mut long = feed.long;
    let mut taken = 0;
    let mut written = 0;
    // Form: a turn goes on by a whole line, and ends early where the output is full, so a `for` over the bytes does not fit.
    while taken < block.len() {
        if out.len() - written < REPLY_ROOM {
            return fed(head, &ids, &rows, kept, used, long, taken, written);
        }
        let Some(n) = newline_in(&block[taken..]) else {
            let rest = keep(&mut kept, used, long, &block[taken..]);
            return fed(
                head,
                &ids,
                &rows,
                kept,
                rest.used,
                rest.long,
                block.len(),
                written,
            );
        };
        let end = taken + n;
        let on = head.setup.device;
        let parsed = parse_ended(&mut kept, used, long, &block[taken..end], on, site, house);
        let replied = reply(head, &mut ids, &mut rows, parsed, &mut out[written..]);
        head = replied.head;
        kept = [0u8; LONGEST];
        used = 0;
        long = false;
        written += replied.written;
        taken = end + 1;
    }
    fed(head, &ids, &rows, kept, used, long, taken, written)
}

// The reply to the end of the input: a line without its newline is answered as one that is too long.
// It goes through `feed`, so that `reply` has one caller and is compiled into its loop.
#[tactic(auto, unfolding(grammar::specs::Text::newline, answers::specs::ReplyLength::reply_room, streams::specs::Stream::unfinished))]
pub fn end(state: Feed) -> LineReply
    ensures { result ≡ in_array (end_reply state) }
{
    let mut text = [0u8; REPLY_ROOM];
    if begun(state.used, state.long) {
        let longer = Feed {
            long: true,
            ..state
        };
        let last = feed(longer, b"\n", b"", b"", &mut text);
        return LineReply {
            text,
            length: last.written,
            session: last.feed.session,
        };
    }
    LineReply {
        text,
        length: 0,
        session: state.session,
    }
}
