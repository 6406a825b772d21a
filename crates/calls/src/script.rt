// What the calls of a script are made on, and the call of a line.
use crate::call::{Call, call_of};
use crate::escapes::text_in;
use crate::feed_calls::{ended, given};
use crate::lent_calls::Lent;
use crate::output::{KEPT, LONGEST_SLICE, unknown};
use crate::reading::reading;
use crate::session_calls::{added, dropped, opened, turned, turned_at_once};
use crate::words::Words;
use lines::feeds::new_feed;
use planner::open::new_session;
use sessions::Session;
use std::io;
use streams::PieceFeed;

// The most bytes of a text: as many as a line of a script.
const LONGEST_TEXT: usize = 4096;

// The byte at every place of an output before a call.
const LENT: u8 = b'#';

// A session; apart from it a lent session; and a text in pieces, with a session of its own.
#[derive(Drop)]
pub struct Host {
    session: Session,
    lent: Lent,
    feed: PieceFeed,
}

// A call with the front of a slice, where it is as long.
fn with_front<T, F: FnOnce(&mut [T]) -> io::Result<()> + Drop>(
    rt: &impl Print,
    slice: &mut [T],
    length: usize,
    call: F,
) -> io::Result<()>
    requires { F.IsAlwaysCallable call }
{
    match slice.get_mut(..length) {
        Some(front) => call(front),
        None => unknown(rt),
    }
}

impl Host {
    // Fresh sessions, no records, and no text.
    pub fn new() -> Host {
        Host {
            session: new_session(),
            lent: Lent::new(),
            feed: new_feed(),
        }
    }

    // Turns at once with the first numbers of two lists.
    fn turns(&mut self, rt: &impl Print, n: usize, length: usize, places: usize) -> io::Result<()> {
        with_front(rt, &mut [KEPT; LONGEST_SLICE], length, |list| {
            with_front(rt, &mut [KEPT; LONGEST_SLICE], places, |ends| {
                turned_at_once(rt, &mut self.session, n, list, ends)
            })
        })
    }

    // A piece of a text, with the first bytes of an output.
    fn piece(&mut self, rt: &impl Print, room: usize, written: &[u8]) -> io::Result<()> {
        let mut text = [0; LONGEST_TEXT];
        match text_in(written, &mut text) {
            Some(text) => with_front(
                rt,
                &mut [LENT; LONGEST_SLICE],
                room,
                |out| given(rt, &mut self.feed, text, out),
            ),
            None => unknown(rt),
        }
    }

    fn call(&mut self, rt: &impl Print, call: Call) -> io::Result<()> {
        match call {
            Call::New => {
                *self = Host::new();
                Ok(())
            }
            Call::Open(opening) => opened(rt, &mut self.session, opening),
            Call::Add(entry) => added(rt, &mut self.session, entry),
            Call::Drop(id) => dropped(rt, &mut self.session, id),
            Call::Turn(length) => with_front(
                rt,
                &mut [KEPT; LONGEST_SLICE],
                length,
                |list| turned(rt, &mut self.session, list),
            ),
            Call::Turns { turns, list, ends } => self.turns(rt, turns, list, ends),
            Call::Read(opening, values) => reading(rt, opening, values),
            Call::Lend(count) => self.lent.lend(rt, count),
            Call::Write(at, entry) => self.lent.write(rt, at, entry),
            Call::LentOpen(opening) => self.lent.open(rt, opening),
            Call::LentAdd(entry) => self.lent.add(rt, entry),
            Call::LentDrop(id) => self.lent.drop_id(rt, id),
            Call::LentTurn(length) => with_front(
                rt,
                &mut [KEPT; LONGEST_SLICE],
                length,
                |list| self.lent.turn(rt, list),
            ),
            Call::LentRun { turns, list } => with_front(
                rt,
                &mut [KEPT; LONGEST_SLICE],
                list,
                |list| self.lent.run(rt, turns, list),
            ),
            Call::Piece(room, written) => self.piece(rt, room, written),
            Call::End(room) => with_front(
                rt,
                &mut [LENT; LONGEST_SLICE],
                room,
                |out| ended(rt, &mut self.feed, out),
            ),
        }
    }

    // A line of the script; one without words is passed over, and one that is not in the notation changes nothing.
    pub fn run_line(&mut self, rt: &impl Print, line: &[u8]) -> io::Result<()> {
        let mut words = Words(line);
        match words.next() {
            None => Ok(()),
            Some(verb) => match call_of(verb, words) {
                Some(call) => self.call(rt, call),
                None => unknown(rt),
            },
        }
    }
}
