// The last line of a reply: `ok`, or `no`, the number and the field at fault.
ghost use Rattle.std.specs.Prelude.{◌∷◌, ◌+◌, ◌≤◌, length};
ghost use Rattle.grammar.specs.Text.{tab, decimal_text};
ghost use Rattle.answers.specs.Replies.{answer_text};
ghost use Rattle.responder.specs.Texts.{Put};

use crate::texts::{put_byte, put_bytes, put_decimal};
use checks::refusals::number_of;
use requests::Answer;

// Puts a number as a field behind another one.
#[tactic(auto, unfolding(grammar::specs::Text::tab))]
fn put_field(out: &mut [u8], at: usize, number: u64) -> usize
    requires { at + 21 ≤ length out.old }
    ensures { Put out.old at (tab ∷ decimal_text number) out.new result }
{
    let start = put_byte(out, at, b'\t');
    put_decimal(out, start, number)
}

// Puts the line of an answer, and of the field at fault where it is a refusal.
#[tactic(auto, unfolding(answers::specs::Replies::answer_text, grammar::specs::Text::line_of, grammar::specs::Text::bytes, grammar::specs::Text::newline, grammar::specs::Text::tab))]
pub fn put_answer(out: &mut [u8], at: usize, answer: Answer, field: usize) -> usize
    requires { at + 45 ≤ length out.old }
    ensures { Put out.old at (answer_text answer field) out.new result }
{
    match answer {
        Ok(()) => put_bytes(out, at, b"ok\n"),
        Err(refusal) => {
            let verb_end = put_bytes(out, at, b"no");
            let number_end = put_field(out, verb_end, number_of(refusal));
            let end = put_field(out, number_end, field as u64);
            put_byte(out, end, b'\n')
        }
    }
}
