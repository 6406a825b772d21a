// The words of a line: parted by blanks; `#` starts a remark.
ghost use Rattle.std.specs.Prelude.{◌≤◌, length};
ghost use Rattle.std.specs.Iterator.{at_most};

use crate::numbers::{decimal, hex};
use requests::CounterSet;

// What is left of a line. Its words are taken one after another.
#[derive(Clone, Copy)]
pub struct Words<'a>(pub &'a [u8]);

// How many bytes at the start of a text pass a test.
fn span<F: Fn(u8) -> bool>(text: &[u8], passes: F) -> usize
    requires { F.IsAlwaysCallable passes }
    ensures { result ≤ length text.now }
{
    text.iter()
        .position(|byte| !passes(*byte))
        .unwrap_or(text.len())
}

impl<'a> Iterator for Words<'a> {
    type Item = &'a [u8];

    ghost remaining = { λ s. at_most (length s.0.now) };

    fn next(&mut self) -> Option<&'a [u8]> {
        let line = self.0;
        let line = &line[span(line, |byte| byte == b' ')..];
        let end = span(line, |byte| byte != b' ' && byte != b'#');
        if end == 0 {
            return None;
        }
        self.0 = &line[end..];
        Some(&line[..end])
    }
}

// The next word, where it is what a call has there.
impl Words<'_> {
    pub fn decimal(&mut self) -> Option<u64> {
        decimal(self.next()?)
    }

    pub fn hex(&mut self) -> Option<u64> {
        hex(self.next()?)
    }

    pub fn length(&mut self) -> Option<usize> {
        usize::try_from(self.decimal()?).ok()
    }

    pub fn set(&mut self) -> Option<CounterSet> {
        Some(CounterSet(self.decimal()?))
    }

    // The code of a letter.
    pub fn letter(&mut self) -> Option<u64> {
        match self.next()? {
            [letter] => Some(u64::from(*letter)),
            _ => None,
        }
    }

    // A core by its number, or `-` for none.
    pub fn core(&mut self) -> Option<Option<u64>> {
        match self.next()? {
            b"-" => Some(None),
            number => Some(Some(decimal(number)?)),
        }
    }

    // No word more.
    pub fn end(&mut self) -> Option<()> {
        match self.next() {
            None => Some(()),
            Some(_) => None,
        }
    }
}
