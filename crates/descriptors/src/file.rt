// Reading a file whole, by its name. What keeps it from being read is told on standard error with the name.
ghost use Rattle.std.specs.Prelude.{◌≡◌, ◌<◌, length};
ghost use Rattle.descriptors.specs.Reads.{ReadWithin};
ghost use Rattle.descriptors.specs.Files.{file_after, FileWithin};

use crate::answers::number_of;
use crate::read::{bytes_read, read_named};
use crate::told::{Tell, fail, tell_decimal};
use crate::{Failure, Reading, Unread};
use std::io::Read;
use std::rt::{Clock, Files};
use std::{fs, io, str};

// The errno of a name that is no text: Linux's EILSEQ.
const EILSEQ: i32 = 84;

// Opens a file to read. In std a path is text.
fn open_once<H: Files>(rt: &H, path: &[u8]) -> io::Result<H::File> {
    let text = str::from_utf8(path).map_err(|_| io::Error::from_raw_os_error(EILSEQ))?;
    fs::open(rt, text)
}

// Opens a file to read. The reason why one is not opened is told.
// A proved loop has to end, so it counts to a number that no run comes to.
fn open<H: Files + Tell>(rt: &H, path: &[u8]) -> Result<H::File, Unread> {
    for _ in 0..u64::MAX {
        match open_once(rt, path) {
            Ok(input) => return Ok(input),
            Err(error) => {
                if !Failure::from(number_of(&error)).is_interrupted() {
                    fail(rt, path, &error);
                    return Err(Unread::Failed);
                }
            }
        }
    }
    Err(Unread::Failed)
}

// Reads more of a file. A read into no byte answers 0, and that is not the end of the file.
fn read_more<H: Clock + Tell, R: Read>(
    rt: &H,
    input: &mut R,
    path: &[u8],
    rest: &mut [u8],
) -> Reading
    requires { 0 < length rest.old }
    ensures { ReadWithin rest.new result }
{
    read_named(rt, input, path, rest)
}

// What a file comes to, by the last read, which follows so many bytes that are in the room.
fn file_after(last: Reading, done: usize) -> Result<usize, Unread>
    ensures { result ≡ file_after last done }
{
    match last {
        Reading::End => Ok(done),
        Reading::Bytes(_) => Err(Unread::TooLong),
        Reading::Again | Reading::Wait | Reading::Failed => Err(Unread::Failed),
    }
}

// Reads an open file to its end, into the room from its start on. Where the room is full, one byte more is asked for.
fn read_whole<H: Clock + Tell, R: Read>(
    rt: &H,
    input: &mut R,
    path: &[u8],
    room: &mut [u8],
) -> Result<usize, Unread>
    ensures { FileWithin room.new result }
{
    let mut done = 0;
    // Form: a turn goes on by as many bytes as were read, so no `for` fits.
    while done < room.len() {
        let reading = read_more(rt, input, path, &mut room[done..]);
        let n = bytes_read(reading);
        if n == 0 {
            return file_after(reading, done);
        }
        done += n;
    }
    let mut beyond = [0u8; 1];
    let last = read_more(rt, input, path, &mut beyond);
    file_after(last, done)
}

// Tells a file that is longer than the room for it.
fn tell_length<H: Tell>(rt: &H, path: &[u8], room: usize) {
    rt.tell(path);
    rt.tell(b": longer than ");
    tell_decimal(rt, room);
    rt.tell(b" bytes\n");
}

// Reads a file whole, into the room from its start on.
pub fn read_file<H: Files + Clock + Tell>(
    rt: &H,
    path: &[u8],
    room: &mut [u8],
) -> Result<usize, Unread>
    ensures { FileWithin room.new result }
{
    let mut input = open(rt, path)?;
    let read = read_whole(rt, &mut input, path, room);
    drop(input);
    if let Err(Unread::TooLong) = read {
        tell_length(rt, path, room.len());
    }
    read
}
