// How the events of every code and unit mask are answered, a line for each device. What is expected comes from the model in bench/rust.
#![tactic(auto)]

mod tally;

use crate::tally::Tally;
use requests::Device;
use std::io;

fn main(rt: HostRuntime) -> io::Result<()> {
    let devices = [
        ("G", Device::G),
        ("S", Device::S),
        ("C", Device::C(0)),
        ("B", Device::B),
    ];
    for (letter, device) in devices {
        println!(rt; "{letter} {}", Tally::of(device))?;
    }
    Ok(())
}
