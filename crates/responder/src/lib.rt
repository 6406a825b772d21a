// The reply to a line: its text, and the session afterwards.
#![tactic(auto)]

use crate::replies::REPLY_ROOM;
use queue_rows::Head;
use sessions::Session;

mod answer_lines;
pub mod line;
pub mod replies;
mod reply_fields;
mod set_lines;
mod take_lines;
pub mod texts;

// The reply to a line: its text in the first `length` bytes, and the session afterwards.
// Form: no heap, so the text has an array of a fixed size; the definition `in_array` holds both fields.
#[derive(Clone, Copy)]
pub struct LineReply {
    pub text: [u8; REPLY_ROOM],
    pub length: usize,
    pub session: Session,
}

// What a reply that went into a lent slice leaves: the session beside its queue, and the number of bytes written.
#[derive(Clone, Copy)]
pub struct Replied {
    pub head: Head,
    pub written: usize,
}
