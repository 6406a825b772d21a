// Transcripts with lists of names, each in a session of its own.
// The blocks are short and the output has room for little more than one reply, so lines are cut, and blocks are answered in parts.
use descriptors::told::{Tell, fail};
use std::fs;
use std::io::Write;
use std::rt::{Clock, Files};

// Answers a file's lines, with names from the lists of two files.
pub fn answer_named<H: Files + Clock + Tell, W: Write>(
    rt: &H,
    output: &mut W,
    path: &str,
    site: &str,
    house: &str,
) {
    let mut input = match fs::open(rt, path) {
        Ok(input) => input,
        Err(error) => {
            fail(rt, path.as_bytes(), &error);
            return;
        }
    };
    let mut block = [0u8; 61];
    let mut out = [0u8; 2100];
    relay::answer_with_files(
        rt,
        &mut input,
        output,
        site.as_bytes(),
        house.as_bytes(),
        &mut block,
        &mut out,
    );
}
