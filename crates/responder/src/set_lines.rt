// The `set` lines of a turn's reply.
ghost use Rattle.std.specs.Prelude.{[], ◌∷◌, ◌+◌, ◌*◌, ◌≤◌, length, take};
ghost use Rattle.grammar.specs.Text.{hex_text};
ghost use Rattle.answers.specs.Replies.{set_lines};
ghost use Rattle.responder.specs.Texts.{Put};

use crate::texts::{put_byte, put_bytes, put_hex};

// Puts a value in 16 hex digits. Most of those of a write list are 0, and few have more than 32 bits.
#[tactic(auto, unfolding(grammar::specs::Text::hex_text, grammar::specs::Text::hex_digit, grammar::specs::Text::bytes))]
fn put_value(out: &mut [u8], at: usize, value: u64) -> usize
    requires { at + 16 ≤ length out.old }
    ensures { Put out.old at (hex_text 16 value) out.new result }
{
    if value == 0 {
        put_bytes(out, at, b"0000000000000000")
    } else if value < 0x1_0000_0000 {
        let half = put_bytes(out, at, b"00000000");
        put_hex(out, half, 8, value)
    } else {
        put_hex(out, at, 16, value)
    }
}

// Puts the `set` line of a write.
#[tactic(auto, unfolding(answers::specs::Replies::set_lines, grammar::specs::Text::line_of, grammar::specs::Text::bytes, grammar::specs::Text::tab, grammar::specs::Text::newline))]
fn put_set(out: &mut [u8], at: usize, address: u64, value: u64) -> usize
    requires { at + 26 ≤ length out.old }
    ensures { Put out.old at (set_lines (address ∷ value ∷ [])) out.new result }
{
    let verb_end = put_bytes(out, at, b"set\t");
    let address_end = put_hex(out, verb_end, 4, address);
    let next = put_byte(out, address_end, b'\t');
    let value_end = put_value(out, next, value);
    put_byte(out, value_end, b'\n')
}

// Puts the `set` lines of the first writes of a list that is address then value.
#[tactic(auto, unfolding(answers::specs::Replies::set_lines))]
pub fn put_sets(out: &mut [u8], at: usize, list: &[u64], writes: usize) -> usize
    requires { (2 * writes ≤ length list.now) × (at + 26 * writes ≤ length out.old) }
    ensures { Put out.old at (set_lines (take (2 * writes) list.now)) out.new result }
{
    let mut next = at;
    for i in 0..writes {
        let address = list[2 * i];
        let value = list[2 * i + 1];
        next = put_set(out, next, address, value);
    }
    next
}
