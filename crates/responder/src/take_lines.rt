// The `take` lines of a turn's reply.
ghost use mathlib.Core.List.{flat_map};
ghost use Rattle.std.specs.Prelude.{◌+◌, ◌*◌, ◌≤◌, length, take, drop};
ghost use Rattle.planner.specs.Selections.{planned};
ghost use Rattle.queue_rows.specs.Rows.{queue_in};
ghost use Rattle.answers.specs.Replies.{take_lines};
ghost use Rattle.responder.specs.Texts.{Put, take_start};

use crate::texts::{put_byte, put_bytes, put_decimal};
use planner::turn::assigned_to;
use plans::Place;
use queue_rows::QUEUE_NUMBERS;
use queue_rows::rows::request_in;
use requests::Entry;
use sessions::{Assigned, QUEUE_LIMIT};

// Puts a `take` line up to its register.
#[tactic(auto, unfolding(crate::specs::Texts::take_start, grammar::specs::Text::bytes, grammar::specs::Text::tab))]
fn put_start(out: &mut [u8], at: usize, id: u64, counter: u64) -> usize
    requires { at + 47 ≤ length out.old }
    ensures { Put out.old at (take_start id counter) out.new result }
{
    let verb_end = put_bytes(out, at, b"take\t");
    let id_end = put_decimal(out, verb_end, id);
    let next = put_byte(out, id_end, b'\t');
    let counter_end = put_decimal(out, next, counter);
    put_byte(out, counter_end, b'\t')
}

// Puts the lines of a request taken: a pair has two, of which the first counts RSP0 and the second RSP1.
#[tactic(auto, unfolding(grammar::specs::Text::bytes, grammar::specs::Text::newline))]
fn put_assigned(out: &mut [u8], at: usize, assigned: Assigned) -> usize
    requires { at + 136 ≤ length out.old }
    ensures { Put out.old at (take_lines assigned) out.new result }
{
    let id = assigned.id;
    match assigned.place {
        Place::Counter(counter) => {
            let register = put_start(out, at, id, counter);
            put_bytes(out, register, b"-\n")
        }
        Place::WithRsp(counter, rsp) => {
            let register = put_start(out, at, id, counter);
            let end = put_decimal(out, register, rsp);
            put_byte(out, end, b'\n')
        }
        Place::Pair(first, second) => {
            let register = put_start(out, at, id, first);
            let line = put_bytes(out, register, b"0\n");
            let last = put_start(out, line, id, second);
            put_bytes(out, last, b"1\n")
        }
    }
}

// Puts the lines of the requests taken, in the order taken: they stand in the queue from `front` on.
#[tactic(auto, unfolding(planner::specs::Selections::planned, sessions::specs::Turns::assign, sessions::specs::Turns::requests_of, plans::specs::Packed::places_from, queue_rows::specs::Rows::entry_at))]
pub fn put_takes(
    out: &mut [u8],
    at: usize,
    code: u64,
    ids: &[u64; QUEUE_LIMIT],
    rows: &[u64; QUEUE_NUMBERS],
    front: usize,
    taken: usize,
) -> usize
    requires { (taken ≤ 8) × (front + taken ≤ 16) × (at + 136 * taken ≤ length out.old) }
    ensures { Put out.old at (flat_map take_lines (planned code (take taken (drop front (queue_in ids.now rows.now))))) out.new result }
{
    let mut next = at;
    for i in 0..taken {
        let entry = Entry {
            id: ids[front + i],
            request: request_in(rows, front + i),
        };
        next = put_assigned(out, next, assigned_to(code, i, entry));
    }
    next
}
