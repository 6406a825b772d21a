// The line program, `tuner [SITE HOUSE]`: lines from standard input, replies to standard output. The two arguments are files, which
// have the site's list of names and the house's. Without them both lists are empty.
// It ends with status 0. Where its first argument asks for the status of the run, it writes the number on descriptor 3 as it ends.
#![tactic(auto)]

ghost use Rattle.std.specs.Prelude.{◌≤◌, IfSome};

use descriptors::told::{Tell, fail};
use relay::{answer_input, answer_with_files, status_of};
use scanner::words::same;
use std::env::FillError;
use std::fs::OpenOptions;
use std::io;
use std::io::{Read, Write};
use std::rt::{Clock, Env, Files};

// The room for an argument. The longest path that the system takes has 4,095 bytes.
const ARGUMENT_ROOM: usize = 4096;

// The room for a block of lines, and for their replies.
const BLOCK_ROOM: usize = 65536;

// The status where a list is not read, and no line answered.
const UNREAD: u64 = 1;

// The status after the usage line, which is all there is then.
const MISUSED: u64 = 2;

// Linux's numbers for an argument that is missing, and for a name that is too long.
const EINVAL: i32 = 22;

const ENAMETOOLONG: i32 = 36;

// Whether the first argument asks for the status.
fn is_status_asked<H: Env>(rt: &H) -> bool {
    let mut word = [0u8; ARGUMENT_ROOM];
    match rt.arg(1, &mut word) {
        Ok(n) => same(&word[..n], b"--status-fd=3"),
        Err(_) => false,
    }
}

// Whether there is such an argument.
fn is_given<H: Env>(rt: &H, at: usize) -> bool {
    match rt.arg(at, &mut []) {
        Ok(_) | Err(FillError::TooLong) => true,
        Err(FillError::NotPresent) => false,
    }
}

// The length of an argument, which is put into the room. Of one that is too long for a path, its start is told.
fn argument<H: Env + Tell>(rt: &H, at: usize, room: &mut [u8; ARGUMENT_ROOM]) -> Option<usize>
    ensures { IfSome result (λ n. n ≤ 4096) }
{
    let errno = match rt.arg(at, room) {
        Ok(n) => return Some(n),
        Err(FillError::TooLong) => ENAMETOOLONG,
        Err(FillError::NotPresent) => EINVAL,
    };
    fail(rt, room, &io::Error::from_raw_os_error(errno));
    None
}

// Answers the lines with the lists of the two files that the arguments from `first` on name.
fn answer_with_lists<H: Env + Files + Clock + Tell, R: Read, W: Write>(
    rt: &H,
    input: &mut R,
    output: &mut W,
    first: usize,
    block: &mut [u8],
    out: &mut [u8],
) -> u64
    requires { first ≤ 2 }
{
    let mut site = [0u8; ARGUMENT_ROOM];
    let Some(n) = argument(rt, first, &mut site) else {
        return UNREAD;
    };
    let mut house = [0u8; ARGUMENT_ROOM];
    let Some(m) = argument(rt, first + 1, &mut house) else {
        return UNREAD;
    };
    status_of(answer_with_files(rt, input, output, &site[..n], &house[..m], block, out))
}

// Answers the lines, with the lists that the arguments from `first` on name, none or two, and gives the status.
fn answer_with_arguments<H: Env + Files + Clock + Tell, R: Read, W: Write>(
    rt: &H,
    input: &mut R,
    output: &mut W,
    first: usize,
) -> u64
    requires { first ≤ 2 }
{
    let mut block = [0u8; BLOCK_ROOM];
    let mut out = [0u8; BLOCK_ROOM];
    if !is_given(rt, first) {
        return status_of(answer_input(rt, input, output, b"", b"", &mut block, &mut out).ending);
    }
    if is_given(rt, first + 1) && !is_given(rt, first + 2) {
        return answer_with_lists(rt, input, output, first, &mut block, &mut out);
    }
    rt.tell(b"usage: tuner [SITE HOUSE]\n");
    MISUSED
}

// Writes the status on descriptor 3.
fn write_status<H: Files>(rt: &H, status: u64) -> io::Result<()> {
    let mut told = OpenOptions::new().write(true).open(rt, "/dev/fd/3")?;
    write!(told, "{status}")
}

fn main(rt: HostRuntime) {
    let asked = is_status_asked(&rt);
    let first = if asked { 2 } else { 1 };
    let mut input = rt.stdin();
    let mut output = rt.stdout();
    let status = answer_with_arguments(&rt, &mut input, &mut output, first);
    if asked {
        let _ = write_status(&rt, status);
    }
}
