// The calls of the lent session, each of which prints its answer and the records that it leaves; and what the host does to the records.
ghost use Rattle.std.specs.Prelude.{◌≤◌};

use crate::lending::{MOST_ROWS, add_rows, drop_rows, open_rows, turn_rows};
use crate::output::{slice, unknown};
use crate::printed::{answer_line, plan};
use crate::rows::rows_line;
use checks::fields::{no_fields, request_fields};
use lent_planner::faults::lent_opening_fields;
use lent_planner::open::new_session;
use lent_sessions::{LentAnswered, LentSession};
use planner::queue::vacant;
use requests::{Entry, Fields, Opening};
use std::io;

// The most turns of one line.
const MOST_TURNS: u64 = 1024;

// A lent session, and the records that are lent to its calls: the first `count` rows.
#[derive(Drop)]
pub struct Lent {
    session: LentSession,
    rows: [Entry; MOST_ROWS],
    count: usize,
    ghost within: { count ≤ 512 },
}

impl Lent {
    // A fresh session, and no records.
    pub fn new() -> Lent {
        Lent {
            session: new_session(),
            rows: [vacant(); MOST_ROWS],
            count: 0,
        }
    }

    // So many vacant records in place of those before.
    pub fn lend(&mut self, rt: &impl Print, count: usize) -> io::Result<()> {
        if MOST_ROWS < count {
            return unknown(rt);
        }
        self.rows = [vacant(); MOST_ROWS];
        self.count = count;
        Ok(())
    }

    // The record at a place.
    pub fn write(&mut self, rt: &impl Print, at: usize, entry: Entry) -> io::Result<()> {
        if self.count <= at {
            return unknown(rt);
        }
        self.rows[at] = entry;
        Ok(())
    }

    fn print_rows(&self, rt: &impl Print) -> io::Result<()> {
        rows_line(rt, &self.rows[..self.count])
    }

    // The answer of an open, add or drop with these fields.
    fn answered(&mut self, rt: &impl Print, done: LentAnswered, fields: Fields) -> io::Result<()> {
        self.session = done.session;
        answer_line(rt, done.answer, fields)?;
        self.print_rows(rt)
    }

    pub fn open(&mut self, rt: &impl Print, given: Opening) -> io::Result<()> {
        let fields = lent_opening_fields(self.count, given);
        let done = open_rows(&mut self.rows, self.count, self.session, given);
        self.answered(rt, done, fields)
    }

    pub fn add(&mut self, rt: &impl Print, entry: Entry) -> io::Result<()> {
        let fields = request_fields(self.session.setup.device, entry.request);
        let done = add_rows(
            &mut self.rows,
            self.count,
            self.session,
            entry.id,
            entry.request,
        );
        self.answered(rt, done, fields)
    }

    pub fn drop_id(&mut self, rt: &impl Print, id: u64) -> io::Result<()> {
        let done = drop_rows(&mut self.rows, self.count, self.session, id);
        self.answered(rt, done, no_fields())
    }

    // A turn with a slice: its plan and its answer.
    fn take(&mut self, rt: &impl Print, list: &mut [u64]) -> io::Result<()> {
        let done = turn_rows(&mut self.rows, self.count, self.session, list);
        self.session = done.session;
        plan(rt, &done.plan, done.taken)?;
        answer_line(rt, done.answer, no_fields())
    }

    // A turn with a slice, its list and the records.
    pub fn turn(&mut self, rt: &impl Print, list: &mut [u64]) -> io::Result<()> {
        self.take(rt, list)?;
        slice(rt, "list", list)?;
        self.print_rows(rt)
    }

    // Turns one after another with one slice, and the records after the last.
    pub fn run(&mut self, rt: &impl Print, turns: u64, list: &mut [u64]) -> io::Result<()> {
        if MOST_TURNS < turns {
            return unknown(rt);
        }
        for _ in 0..turns {
            self.take(rt, list)?;
        }
        self.print_rows(rt)
    }
}
