// Prints what a reading tells, a line for each counter.
use crate::changes::Run;
use checks::devices::counter_count;
use layouts::{CounterState, FilterRead};
use requests::{Device, Overflow, Setup};
use std::io;

fn letter(device: Device) -> &'static str {
    match device {
        Device::G => "G",
        Device::S => "S",
        Device::C(_) => "C",
        Device::B => "B",
    }
}

// What an overflow does.
fn overflow(rt: &impl Print, asked: Overflow) -> io::Result<()> {
    if asked.freeze != 0 {
        print!(rt; " freeze {}", asked.freeze)?;
    }
    if let Some(number) = asked.core {
        print!(rt; " core {number}")?;
    }
    Ok(())
}

// What a plan is for. Fixed counters are told where they are on, and the box where the device has several.
pub fn setup(rt: &impl Print, setup: Setup) -> io::Result<()> {
    print!(rt; "{} {}", letter(setup.device), setup.usable.0)?;
    if setup.fixed != 0 {
        print!(rt; " fixed {}", setup.fixed)?;
    }
    if let Device::C(number) = setup.device {
        print!(rt; " box {number}")?;
    }
    overflow(rt, setup.overflow)
}

// The filter register and its words.
fn filter(rt: &impl Print, filter: FilterRead) -> io::Result<()> {
    match filter {
        FilterRead::NoFilter => Ok(()),
        FilterRead::Rsp(register, word) => print!(rt; " rsp {register} {word:016x}"),
        FilterRead::MatchMask(match_word, mask_word) => {
            print!(rt; " {match_word:016x} {mask_word:016x}")
        }
    }
}

// What a counter does.
fn state(rt: &impl Print, state: CounterState) -> io::Result<()> {
    match state {
        CounterState::NotOurs => print!(rt; " not ours"),
        CounterState::Off => print!(rt; " off"),
        CounterState::Counts {
            code,
            mask,
            filter: words,
        } => {
            print!(rt; " counts {code:02x} {mask:02x}")?;
            filter(rt, words)
        }
    }
}

// The counters of the device.
pub fn counters(rt: &impl Print, run: &Run) -> io::Result<()> {
    let count = counter_count(run.setup.device);
    if let Ok(states) = run.told {
        for (k, told) in (0..count).zip(&states) {
            print!(rt; "{k}")?;
            state(rt, *told)?;
            println!(rt)?;
        }
    }
    Ok(())
}
