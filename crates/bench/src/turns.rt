// The four calls over numbers, for the Rust program of bench/ to link: lists of calls with all their answers, and runs of turns to time.
ghost use Rattle.std.specs.Prelude.{◌≤◌};

use checks::askings::unasked;
use checks::refusals::number_of;
use planner::add::add;
use planner::drop::drop_request;
use planner::open::{new_session, open};
use planner::turn::turn;
use requests::{Answer, CounterSet, Opening};
use search::rows::request_of;
use sessions::{Answered, Session};

// The calls, as a record of six numbers begins with them. Then follow the device, the usable set, the fixed enables and the box, or the id
// and a request's four numbers, or the length of the slice that a turn is lent.
// Form: (a) the C interface: a caller in another language writes a call as a number.
const OPEN: u64 = 0;

const ADD: u64 = 1;

const DROP: u64 = 2;

// The longest slice that a turn is lent.
const ROOM: u64 = 40;

// The most calls of a list.
const MOST: usize = 4096;

// The number of an answer, 0 where the call is accepted.
fn number(answer: Answer) -> u64 {
    match answer {
        Ok(()) => 0,
        Err(refusal) => number_of(refusal),
    }
}

// Where a slice of this length ends, behind the first three numbers.
fn slice_end(room: u64) -> usize
    ensures { (3 ≤ result) × (result ≤ 43) }
{
    room.min(ROOM) as usize + 3
}

// A turn that is lent the front of what follows the first three numbers: its answer, the number taken and the number of writes.
fn answered_turn(session: Session, room: u64, out: &mut [u64; 43]) -> Session {
    let end = slice_end(room);
    let answered = turn(session, &mut out[3..end]);
    out[0] = number(answered.answer);
    out[1] = answered.taken as u64;
    out[2] = answered.writes as u64;
    answered.session
}

// The opening with the fixed enables and the box, where nothing is asked.
fn opening(device: u64, usable: u64, fixed: u64, cbox: u64) -> Opening {
    Opening {
        device,
        usable: CounterSet(usable),
        fixed,
        cbox,
        overflow: unasked(),
    }
}

// An open, an add or a drop: its answer.
fn answered(done: Answered, out: &mut [u64; 43]) -> Session {
    out[0] = number(done.answer);
    done.session
}

// One call, and its answer.
fn called(session: Session, call: &[u64; 6], out: &mut [u64; 43]) -> Session {
    let [verb, id, kind, a, b, c] = *call;
    match verb {
        OPEN => answered(open(session, opening(id, kind, a, b)), out),
        ADD => answered(add(session, id, request_of(kind, a, b, c)), out),
        DROP => answered(drop_request(session, id), out),
        _ => answered_turn(session, id, out),
    }
}

// Answers a list of calls, six numbers each, with 43 numbers each: the refusal number or 0, and of a turn the number taken, the number of
// writes and the slice. It answers how many calls there was room for, at most 4096.
#[unsafe(no_mangle)]
pub extern "C" fn rattle_calls(calls: &[u64], answers: &mut [u64]) -> usize {
    let (calls, _) = calls.as_chunks::<6>();
    let (answers, _) = answers.as_chunks_mut::<43>();
    let mut session = new_session();
    for (call, out) in calls.iter().zip(answers.iter_mut()).take(MOST) {
        session = called(session, call, out);
    }
    calls.len().min(answers.len()).min(MOST)
}

// Opens a session with the fixed counters off, on C of box 0, adds the requests of the rows, and makes as many turns. It answers the number of writes of the last one.
#[unsafe(no_mangle)]
pub extern "C" fn rattle_turns(device: u64, usable: u64, rows: &[u64], turns: usize) -> usize {
    let opened = open(new_session(), opening(device, usable, 0, 0));
    let mut session = opened.session;
    let (rows, _) = rows.as_chunks::<4>();
    for (i, [kind, a, b, c]) in rows.iter().enumerate() {
        let answered = add(session, i as u64 + 1, request_of(*kind, *a, *b, *c));
        session = answered.session;
    }
    let mut list = [0; 40];
    let mut writes = 0;
    for _ in 0..turns {
        let answered = turn(session, &mut list);
        session = answered.session;
        writes = answered.writes;
    }
    writes
}
