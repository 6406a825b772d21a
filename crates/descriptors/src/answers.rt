// The answer of a call: the number of bytes that it moved, or its errno, from what std's `read` and `write` return.
ghost use Rattle.std.specs.Prelude.{◌≡◌, Ok, MatchResult, IsErrAnd, IfSome};
ghost use Rattle.std.specs.IoError.{raw_os_error};

use crate::failures::{EAGAIN, EINTR, EIO, EPIPE};
use std::io;
use std::io::ErrorKind;

// The errno of an error. One that the system did not give is that of its kind, where retries go by it, and else EIO.
pub fn number_of(error: &io::Error) -> i32
    ensures { IfSome (raw_os_error error.now) (λ code. result ≡ code) }
{
    if let Some(code) = error.raw_os_error() {
        return code;
    }
    match error.kind() {
        ErrorKind::Interrupted => EINTR,
        ErrorKind::WouldBlock => EAGAIN,
        ErrorKind::BrokenPipe => EPIPE,
        _ => EIO,
    }
}

// What a call answered that returned this: the number of bytes that it moved, or errno.
pub fn answer_of(returned: &io::Result<usize>) -> Result<usize, i32>
    ensures { MatchResult returned.now (λ n. result ≡ Ok n) (λ e. IsErrAnd result (λ errno. IfSome (raw_os_error e) (λ code. errno ≡ code))) }
{
    match returned {
        Ok(n) => Ok(*n),
        Err(error) => Err(number_of(error)),
    }
}
