// The calls of a session: each prints its answer and what it leaves.
use crate::output::slice;
use crate::printed::{answer_line, plan, queue};
use checks::fields::{no_fields, opening_fields, request_fields, turns_fields};
use planner::add::add;
use planner::drop::drop_request;
use planner::open::open;
use planner::turn::turn;
use planner::turns::turns;
use requests::{Entry, Fields, Opening};
use sessions::{Answered, Session};
use std::io;

// The answer of an open, add or drop with these fields.
fn answered(
    rt: &impl Print,
    session: &mut Session,
    done: Answered,
    fields: Fields,
) -> io::Result<()> {
    *session = done.session;
    answer_line(rt, done.answer, fields)?;
    queue(rt, session)
}

pub fn opened(rt: &impl Print, session: &mut Session, given: Opening) -> io::Result<()> {
    let done = open(*session, given);
    answered(rt, session, done, opening_fields(given))
}

pub fn added(rt: &impl Print, session: &mut Session, entry: Entry) -> io::Result<()> {
    let fields = request_fields(session.setup.device, entry.request);
    let done = add(*session, entry.id, entry.request);
    answered(rt, session, done, fields)
}

pub fn dropped(rt: &impl Print, session: &mut Session, id: u64) -> io::Result<()> {
    let done = drop_request(*session, id);
    answered(rt, session, done, no_fields())
}

// A turn with a slice.
pub fn turned(rt: &impl Print, session: &mut Session, list: &mut [u64]) -> io::Result<()> {
    let done = turn(*session, list);
    *session = done.session;
    plan(rt, &done.plan, done.taken)?;
    answer_line(rt, done.answer, no_fields())?;
    slice(rt, "list", list)?;
    queue(rt, session)
}

// Turns at once, with a slice for the lists and one for their ends.
pub fn turned_at_once(
    rt: &impl Print,
    session: &mut Session,
    n: usize,
    list: &mut [u64],
    ends: &mut [u64],
) -> io::Result<()> {
    let done = turns(*session, n, list, ends);
    *session = done.session;
    answer_line(rt, done.answer, turns_fields())?;
    slice(rt, "list", list)?;
    slice(rt, "ends", ends)?;
    queue(rt, session)
}
