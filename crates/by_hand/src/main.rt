// A session made by hand, with nonsense in it: every call answers by its definition. What is expected comes from the model in bench/rust.
#![tactic(auto)]

mod calls;
mod nonsense;
mod print;

use std::io;

fn main(rt: HostRuntime) -> io::Result<()> {
    nonsense::run(&rt)
}
