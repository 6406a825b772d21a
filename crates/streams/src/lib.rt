// The state of the line program between two bytes of its input, and of a text that is given in pieces.
#![tactic(auto)]

use requests::Answer;
use sessions::Session;

// The most bytes of a line that are kept.
pub const LONGEST: usize = 80;

// The state between two bytes: the session, the first 80 bytes of the unfinished line, and whether it is longer.
#[derive(Clone, Copy)]
pub struct Feed {
    pub session: Session,
    pub kept: [u8; LONGEST],
    pub used: usize,
    pub long: bool,
}

// A text that is given in pieces: the state after them, and whether the end has been declared.
#[derive(Clone, Copy)]
pub struct PieceFeed {
    pub feed: Feed,
    pub ended: bool,
}

// What a piece or the end leaves: the answer, the state, and the number of bytes written.
#[derive(Clone, Copy)]
pub struct PieceAnswered {
    pub answer: Answer,
    pub state: PieceFeed,
    pub written: usize,
}
