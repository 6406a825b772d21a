// For each plan: what the reader tells of the registers that its writes leave, and how many of the values with one bit changed it
// accepts. What is expected comes from the model in bench/rust.
#![tactic(auto)]

mod asked;
mod changes;
mod print;
mod run;
mod values;

use crate::asked::{cbox_event, event, latency, offcore, packet};
use crate::run::run;
use checks::askings::unasked;
use requests::{CounterSet, Device, Overflow, Setup};
use std::io;

// A device with a usable set and the enables of its fixed counters, where an overflow does nothing.
fn on(device: Device, usable: u64, fixed: u64) -> Setup {
    Setup {
        device,
        usable: CounterSet(usable),
        fixed,
        overflow: unasked(),
    }
}

// A setup, where an overflow does something.
fn asking(setup: Setup, freeze: u64, core: Option<u64>) -> Setup {
    Setup {
        overflow: Overflow { freeze, core },
        ..setup
    }
}

fn on_g(rt: &impl Print) -> io::Result<()> {
    let g = |usable, fixed| on(Device::G, usable, fixed);
    let events = [
        event(0xC0, 0x00),
        event(0x3C, 0x01),
        event(0x2E, 0x41),
        event(0xC5, 0x00),
    ];
    let shared = [offcore(0x1_0001), latency(0x0001)];
    let pairs = [latency(0x8001), latency(0x8001)];
    let words = [
        offcore(0x12_0000_0002),
        offcore(0x1_0002),
        event(0x3C, 0x00),
    ];
    let hits = [offcore(0x4_0001), offcore(0x2_0004_0001), event(0x3C, 0x00)];
    run(rt, g(15, 0), &[])?;
    run(rt, g(15, 0), &events)?;
    run(rt, g(15, 0), &shared)?;
    run(rt, g(15, 0), &pairs)?;
    run(rt, g(14, 0), &words)?;
    run(rt, g(15, 0), &hits)?;
    run(rt, g(15, 5), &[])?;
    run(rt, g(15, 5), &events)?;
    run(rt, g(14, 7), &words)
}

fn on_s(rt: &impl Print) -> io::Result<()> {
    let s = |usable| on(Device::S, usable, 0);
    let events = [
        event(0x51, 0x01),
        event(0x31, 0x02),
        event(0x52, 0x00),
        event(0x2F, 0x00),
    ];
    let bypass = event(0x51, 0x03);
    let packets = [packet(), packet(), bypass];
    let one = [packet(), bypass];
    run(rt, s(9), &[])?;
    run(rt, s(15), &events)?;
    run(rt, s(15), &packets)?;
    run(rt, s(14), &one)?;
    run(rt, asking(s(9), 1, None), &[])?;
    run(rt, asking(s(15), 0, Some(0)), &events)?;
    run(rt, asking(s(14), 1, Some(7)), &one)
}

fn on_c(rt: &impl Print) -> io::Result<()> {
    let c = |usable, cbox| on(Device::C(cbox), usable, 0);
    let maf = cbox_event(0x1F, 0x00);
    let listed = [
        cbox_event(0x19, 0x00),
        cbox_event(0x1B, 0x00),
        maf,
        cbox_event(0x23, 0x00),
        cbox_event(0x0B, 0x07),
        cbox_event(0x28, 0xA5),
    ];
    let masked = [
        cbox_event(0x0B, 0x18),
        cbox_event(0x14, 0x05),
        cbox_event(0x09, 0x7F),
    ];
    run(rt, c(63, 0), &[])?;
    run(rt, c(63, 0), &listed)?;
    run(rt, c(48, 1), &[maf])?;
    run(rt, c(62, 7), &masked)?;
    run(rt, asking(c(63, 0), 1, Some(2)), &listed)?;
    run(rt, asking(c(48, 1), 0, Some(5)), &[maf])?;
    run(rt, asking(c(62, 7), 1, None), &[])
}

fn on_b(rt: &impl Print) -> io::Result<()> {
    let b = |usable, fixed| on(Device::B, usable, fixed);
    let events = [
        event(0xC0, 0x00),
        event(0x3C, 0x01),
        event(0x2E, 0x41),
        event(0xC5, 0x00),
    ];
    let lone = [event(0xC0, 0x01)];
    let store = event(0xCD, 0x02);
    let stores = [store, event(0x3C, 0x00), event(0x2E, 0x4F)];
    run(rt, b(15, 0), &[])?;
    run(rt, b(15, 0), &events)?;
    run(rt, b(15, 0), &lone)?;
    run(rt, b(15, 5), &lone)?;
    run(rt, b(15, 0), &[event(0xC0, 0x00), store])?;
    run(rt, b(14, 7), &stores)?;
    run(rt, b(8, 0), &[store])?;
    run(rt, b(7, 1), &[event(0xC4, 0x00)])
}

fn main(rt: HostRuntime) -> io::Result<()> {
    on_g(&rt)?;
    on_s(&rt)?;
    on_c(&rt)?;
    on_b(&rt)
}
