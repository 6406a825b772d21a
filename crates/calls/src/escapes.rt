// Texts with tabs and newlines, as a script and its answers have them: written `\t` and `\n`.
ghost use Rattle.std.specs.Prelude.{◌<◌, ◌≤◌, ◌+◌, length, IfSome};

use std::io;

// The first byte of a text, and what is written behind it.
fn first_of(written: &[u8]) -> Option<(u8, &[u8])>
    ensures rest { IfSome result (λ p. length p.1.now < length written.now) }
    ensures width { IfSome result (λ p. length written.now ≤ length p.1.now + 2) }
{
    match written {
        [b'\\', b't', rest @ ..] => Some((b'\t', rest)),
        [b'\\', b'n', rest @ ..] => Some((b'\n', rest)),
        [b'\\', ..] | [] => None,
        [byte, rest @ ..] => Some((*byte, rest)),
    }
}

// The text that is written so, at the start of the room, where it is in the notation and there is room for it.
pub fn text_in<'a>(written: &[u8], room: &'a mut [u8]) -> Option<&'a [u8]> {
    let mut count = 0;
    let mut rest = written;
    // Form: a turn takes one byte or two of what is left, so no `for` fits.
    while !rest.is_empty() {
        let (byte, behind) = first_of(rest)?;
        *room.get_mut(count)? = byte;
        count += 1;
        rest = behind;
    }
    room.get(..count)
}

// Prints a text.
// Form: by `write_all`, since `print!` of an escape takes a quarter more time, for a buffer that it clears each time.
pub fn print_text(rt: &impl Print, text: &[u8]) -> io::Result<()> {
    for part in text.split_inclusive(|byte| matches!(*byte, b'\t' | b'\n')) {
        match part {
            [plain @ .., b'\t'] => {
                rt.write_all(plain)?;
                rt.write_all(b"\\t")?;
            }
            [plain @ .., b'\n'] => {
                rt.write_all(plain)?;
                rt.write_all(b"\\n")?;
            }
            plain => rt.write_all(plain)?,
        }
    }
    Ok(())
}
