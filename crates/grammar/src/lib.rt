// Records: what a line of text asks for, verb by verb.
#![tactic(auto)]

use requests::{Device, Request, Setup};

// The most bytes of a line, without its newline.
pub const LONGEST: usize = 80;

// What a line asks for. What it opens with is not judged yet.
#[derive(Clone, Copy)]
pub enum Record {
    Open(Setup),
    Add { id: u64, request: Request },
    Drop { id: u64 },
    Turn,
}

// What a line asks for: a record; or the add of a request that is asked for by name, which has fields of its own.
#[derive(Clone, Copy)]
pub enum Line {
    Record(Record),
    Named { id: u64, request: Request },
}

// What a line is: what it asks for; or nothing, with the first field that breaks the grammar, counted from 0 at the verb.
pub type Parsed = Result<Line, usize>;
