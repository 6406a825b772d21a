// The queue of a session put into the arrays, and read back.
ghost use Rattle.std.specs.Prelude.{◌≡◌, min};
ghost use Rattle.queue_rows.specs.Rows.{Sized};
ghost use Rattle.queue_rows.specs.Heads.{places, session_in};

use crate::rows::{put_entry, request_in};
use crate::{Head, QUEUE_NUMBERS};
use planner::queue::{bounded, vacant};
use requests::Entry;
use sessions::{QUEUE_LIMIT, Session};

// Puts the queue into the arrays, whatever stands past it too.
#[tactic(auto, unfolding(sessions::specs::Sessions::vacant))]
pub fn pack(session: Session, ids: &mut [u64; QUEUE_LIMIT], rows: &mut [u64; QUEUE_NUMBERS]) -> Head
    requires { Sized ids.old rows.old }
    ensures rows_after { session_in result ids.new rows.new ≡ session }
    ensures sized { Sized ids.new rows.new }
{
    for i in 0..QUEUE_LIMIT {
        let entry = session.queue[i];
        put_entry(ids, rows, i, entry.id, entry.request);
    }
    let opened = session.opened;
    let setup = session.setup;
    Head {
        opened,
        setup,
        len: session.len,
        trimmed: false,
    }
}

// How many places count, of those that the arrays have.
#[tactic(auto, unfolding(crate::specs::Heads::places))]
fn places_of(head: Head) -> usize
    ensures { result ≡ min (places head) 16 }
{
    if head.trimmed {
        return bounded(head.len);
    }
    QUEUE_LIMIT
}

// The session of a head and the arrays.
#[tactic(auto, unfolding(crate::specs::Rows::entry_at))]
pub fn unpack(head: Head, ids: &[u64; QUEUE_LIMIT], rows: &[u64; QUEUE_NUMBERS]) -> Session
    ensures { result ≡ session_in head ids.now rows.now }
{
    let n = places_of(head);
    let mut queue = [vacant(); QUEUE_LIMIT];
    for (i, id) in ids[..n].iter().enumerate() {
        queue[i] = Entry {
            id: *id,
            request: request_in(rows, i),
        };
    }
    let opened = head.opened;
    let setup = head.setup;
    Session {
        opened,
        setup,
        queue,
        len: head.len,
    }
}
