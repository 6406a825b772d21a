// The calls of a text in pieces, without names: each prints its answer and the whole output.
use crate::escapes::print_text;
use crate::printed::answer;
use checks::faults::field_of;
use checks::fields::no_fields;
use lines::feeds::{end, piece};
use std::io;
use streams::{PieceAnswered, PieceFeed};

// `ok` and the number of bytes written, or `no`, the number and the field at fault; and the whole output.
fn answered(
    rt: &impl Print,
    feed: &mut PieceFeed,
    done: PieceAnswered,
    out: &[u8],
) -> io::Result<()> {
    *feed = done.state;
    answer(rt, done.answer)?;
    let number = match done.answer {
        Ok(()) => done.written,
        Err(refusal) => field_of(refusal, no_fields()),
    };
    println!(rt; " {number}")?;
    print!(rt; "output ")?;
    print_text(rt, out)?;
    println!(rt)
}

pub fn given(rt: &impl Print, feed: &mut PieceFeed, text: &[u8], out: &mut [u8]) -> io::Result<()> {
    let done = piece(*feed, text, b"", b"", out);
    answered(rt, feed, done, out)
}

pub fn ended(rt: &impl Print, feed: &mut PieceFeed, out: &mut [u8]) -> io::Result<()> {
    let done = end(*feed, b"", b"", out);
    answered(rt, feed, done, out)
}
