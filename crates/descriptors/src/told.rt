// What is told on standard error.
use std::fmt::Write;
use std::{fmt, io};

// What tells on standard error. What is told need not be text, since names of files come as bytes.
pub trait Tell {
    fn tell(&self, bytes: &[u8]);
}

impl Tell for HostRuntime {
    // Where standard error takes no more, there is nowhere to say so.
    fn tell(&self, bytes: &[u8]) {
        let _ = self.stderr().write_all(bytes);
    }
}

// The start of a text, as much as there is room for.
// Form: no heap, so a text has an array of a fixed size, and its length.
#[derive(Drop)]
struct Text {
    bytes: [u8; ROOM],
    length: usize,
}

const ROOM: usize = 128;

impl Text {
    fn new() -> Text {
        Text {
            bytes: [0; ROOM],
            length: 0,
        }
    }

    fn as_bytes(&self) -> &[u8] {
        &self.bytes[..self.length.min(ROOM)]
    }
}

impl Write for Text {
    fn write_str(&mut self, s: &str) -> fmt::Result {
        for byte in s.as_bytes() {
            let n = self.length;
            if n < ROOM {
                self.bytes[n] = *byte;
                self.length = n + 1;
            }
        }
        Ok(())
    }
}

// The error's text, and what std adds to the system's text for an errno.
fn text_of(error: &io::Error) -> (Text, Text) {
    let mut text = Text::new();
    let _ = write!(text, "{error}");
    let mut added = Text::new();
    if let Some(code) = error.raw_os_error() {
        let _ = write!(added, " (os error {code})");
    }
    (text, added)
}

// Tells a line: what failed, as the caller names it, a colon and the system's text for the errno.
pub fn fail<H: Tell>(rt: &H, what: &[u8], error: &io::Error) {
    let (text, added) = text_of(error);
    rt.tell(what);
    rt.tell(b": ");
    match text.as_bytes().strip_suffix(added.as_bytes()) {
        Some(reason) => rt.tell(reason),
        None => rt.tell(text.as_bytes()),
    }
    rt.tell(b"\n");
}

// Tells the failure of a call that returned this, if it failed.
pub(crate) fn tell_failure<H: Tell>(rt: &H, what: &[u8], returned: &io::Result<usize>) {
    if let Err(error) = returned {
        fail(rt, what, error);
    }
}

// Tells a number in decimal.
pub fn tell_decimal<H: Tell>(rt: &H, n: usize) {
    let mut text = Text::new();
    let _ = write!(text, "{n}");
    rt.tell(text.as_bytes());
}
