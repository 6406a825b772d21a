// Standard output: lines of numbers.
ghost use Rattle.std.specs.Prelude.{◌≤◌, length};

use std::io;

// A line that is not in the notation changes nothing.
pub fn unknown(rt: &impl Print) -> io::Result<()> {
    println!(rt; "?")
}

// The longest slice of a script.
pub const LONGEST_SLICE: usize = 8192;

// The value of every number of a slice before a call.
pub const KEPT: u64 = 0xEEEE;

// Where the untouched numbers at the end of a slice begin.
fn kept_from(numbers: &[u64]) -> usize
    ensures { result ≤ length numbers.now }
{
    match numbers.iter().rposition(|number| *number != KEPT) {
        Some(last) => last + 1,
        None => 0,
    }
}

// A slice after a call: its name, its numbers, and how many at its end are untouched.
pub fn slice(rt: &impl Print, name: &str, numbers: &[u64]) -> io::Result<()> {
    let (written, kept) = numbers.split_at(kept_from(numbers));
    print!(rt; "{name}")?;
    for number in written {
        print!(rt; " {number:X}")?;
    }
    if !kept.is_empty() {
        print!(rt; " kept*{}", kept.len())?;
    }
    println!(rt)
}
