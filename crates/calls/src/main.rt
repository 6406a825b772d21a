// Library calls as scripts: reads a script from standard input, a call a line, and prints the answer of each.
// docs/MAINTAINING.md has the notation. A line that is not in it is answered `?` and changes nothing.
#![tactic(auto)]

mod call;
mod escapes;
mod feed_calls;
mod lending;
mod lent_calls;
mod numbers;
mod output;
mod printed;
mod reading;
mod rows;
mod script;
mod session_calls;
mod source;
mod words;

use std::io;

fn main(rt: HostRuntime) -> io::Result<()> {
    source::run(&rt)
}
