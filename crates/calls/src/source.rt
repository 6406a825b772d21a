// The script: standard input, line by line.
use crate::output::unknown;
use crate::script::Host;
use std::io;
use std::io::Read;

// The room for a block of the script, and for a line.
const ROOM: usize = 4096;

// The unfinished line: its first bytes, and how many it has.
#[derive(Drop)]
struct Line {
    text: [u8; ROOM],
    count: usize,
}

impl Line {
    // One byte more.
    fn push(&mut self, byte: u8) {
        if let Some(place) = self.text.get_mut(self.count) {
            *place = byte;
        }
        self.count = self.count.saturating_add(1);
    }

    // Runs the line; one for which there is no room is not in the notation.
    fn run(&self, rt: &impl Print, host: &mut Host) -> io::Result<()> {
        match self.text.get(..self.count) {
            Some(line) => host.run_line(rt, line),
            None => unknown(rt),
        }
    }
}

// A block of the script.
fn run_block(rt: &impl Print, host: &mut Host, line: &mut Line, block: &[u8]) -> io::Result<()> {
    for byte in block {
        if *byte == b'\n' {
            line.run(rt, host)?;
            line.count = 0;
        } else {
            line.push(*byte);
        }
    }
    Ok(())
}

// Runs the script to its end; a last line needs no newline. A proved loop has to end, so it counts to a number that no run comes to.
pub fn run(rt: &(impl Input + Print)) -> io::Result<()> {
    let mut input = rt.reader();
    let mut block = [0; ROOM];
    let mut line = Line {
        text: [0; ROOM],
        count: 0,
    };
    let mut host = Host::new();
    for _ in 0..u64::MAX {
        let n = input.read(&mut block)?;
        if n == 0 {
            break;
        }
        run_block(rt, &mut host, &mut line, &block[..n])?;
    }
    if 0 < line.count {
        line.run(rt, &mut host)?;
    }
    Ok(())
}
