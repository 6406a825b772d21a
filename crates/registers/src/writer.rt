// The write list of register values, into a slice that the caller lends.
ghost use Rattle.std.specs.Prelude.{◌≡◌, true, ◌+◌, ◌*◌, ◌≤◌, length};
ghost use Rattle.requests.specs.Choice.{pick};
ghost use Rattle.requests.specs.Askings.{asked};
ghost use Rattle.requests.specs.Devices.{size, capacity};
ghost use Rattle.layouts.specs.Writes.{row, rows, offcore_writes, packet_writes, filter_writes, precise_writes, box_writes, writes_for};
ghost use Rattle.layouts.specs.Layout.{ubox_at};
ghost use Rattle.layouts.specs.Slices.{Appended, Wrote};

use crate::global::{first_global, last_global};
use crate::pebs::{PEBS_ENABLE, pebs_enable, pebs_on};
use crate::tables::{MASK, MATCH, MM_CFG, MM_CFG_ENABLE, OFFCORE_RSP0, OFFCORE_RSP1, layout_of};
use crate::ubox::{U_GLOBAL_CTL, ubox_value};
use checks::askings::asked;
use checks::devices::counter_count;
use checks::set::{has, size_of};
use layouts::Settings;
use requests::{CAPACITY, CounterSet, Device, Refusal, Setup};

// The registers of one kind of the device, one for each counter: that of counter k is at base + step * k.
#[derive(Clone, Copy)]
struct Bank {
    count: u64,
    base: u64,
    step: u64,
}

// How many writes the filter registers and IA32_PEBS_ENABLE take.
#[tactic(auto, unfolding(layouts::specs::Writes::filter_writes, layouts::specs::Writes::offcore_writes, layouts::specs::Writes::precise_writes, layouts::specs::Layout::pebs_on, layouts::specs::Writes::packet_writes))]
fn extra_count(device: Device, settings: &Settings) -> usize
    ensures { result ≡ length (filter_writes device settings.now) + length (precise_writes device settings.now) }
{
    match device {
        Device::G => 2,
        Device::S if settings.packet.is_some() => 4,
        Device::S | Device::B => 1,
        Device::C(_) => 0,
    }
}

// How many writes the U-Box takes.
fn ubox_count(setup: Setup) -> usize
    ensures { result ≡ 2 * pick (asked setup) 1 0 }
{
    if asked(setup) { 2 } else { 0 }
}

// How many writes the list has.
#[tactic(auto, using(crate::proofs::WriteLengths::device_size, crate::proofs::WriteLengths::extra_small, crate::proofs::WriteLengths::pick_small))]
pub fn write_count(setup: Setup, settings: Settings) -> usize
    ensures { result ≡ length (writes_for setup settings) }
{
    let count = counter_count(setup.device);
    2 + size_of(count, setup.usable)
        + extra_count(setup.device, &settings)
        + 2 * size_of(count, settings.used)
        + ubox_count(setup)
}

// A write list in a slice that is lent: it stands before place `at`.
#[derive(Drop)]
struct WriteList<'a> {
    out: &'a mut [u64],
    at: usize,
}

impl WriteList<'_> {
    ghost use Rattle.registers.specs.WriteLists.{HasRoom, Puts};

    // One write.
    #[tactic(auto, unfolding(layouts::specs::Writes::flat))]
    fn put(&mut self, address: u64, value: u64)
        requires { self.old.at + 2 ≤ length self.old.out.now }
        ensures { Puts self.old (row true address value) self.new }
    {
        self.out[self.at] = address;
        self.out[self.at + 1] = value;
        self.at += 2;
    }

    // The writes of values to the registers of the counters of the set, rising.
    #[tactic(auto, unfolding(layouts::specs::Writes::rows, requests::specs::Devices::capacity))]
    fn put_rows(&mut self, bank: Bank, set: CounterSet, values: &[u64; CAPACITY])
        requires { (self.old.at + 2 * size bank.count set ≤ length self.old.out.now) × (bank.count ≤ capacity) × (bank.base ≤ 0xFFFF) × (bank.step ≤ 2) }
        ensures { Puts self.old (rows bank.count set bank.base bank.step values.now) self.new }
    {
        for counter in 0..bank.count {
            if has(set, counter) {
                let address = bank.base + bank.step * counter;
                self.put(address, values[counter as usize]);
            }
        }
    }

    // The RSP registers.
    #[tactic(auto, unfolding(layouts::specs::Writes::offcore_writes, layouts::specs::Layout::rsp0_at, layouts::specs::Layout::rsp1_at))]
    fn put_offcore(&mut self, settings: &Settings)
        requires { HasRoom self.old (offcore_writes settings.now.rsp0 settings.now.rsp1) }
        ensures { Puts self.old (offcore_writes settings.now.rsp0 settings.now.rsp1) self.new }
    {
        self.put(OFFCORE_RSP0, settings.rsp0);
        self.put(OFFCORE_RSP1, settings.rsp1);
    }

    // The match/mask register: off, and where packets are counted then set and on again.
    #[tactic(auto, unfolding(layouts::specs::Writes::packet_writes, layouts::specs::Layout::mm_cfg_at, layouts::specs::Layout::match_at, layouts::specs::Layout::mask_at, layouts::specs::Layout::mm_enable))]
    fn put_packets(&mut self, settings: &Settings)
        requires { HasRoom self.old (packet_writes settings.now.packet) }
        ensures { Puts self.old (packet_writes settings.now.packet) self.new }
    {
        self.put(MM_CFG, 0);
        if let Some((match_word, mask_word)) = settings.packet {
            self.put(MATCH, match_word);
            self.put(MASK, mask_word);
            self.put(MM_CFG, MM_CFG_ENABLE);
        }
    }

    // The filter registers of the device.
    #[tactic(auto, unfolding(layouts::specs::Writes::filter_writes))]
    fn put_filters(&mut self, device: Device, settings: &Settings)
        requires { HasRoom self.old (filter_writes device settings.now) }
        ensures { Puts self.old (filter_writes device settings.now) self.new }
    {
        match device {
            Device::G => self.put_offcore(settings),
            Device::S => self.put_packets(settings),
            Device::C(_) | Device::B => {}
        }
    }

    // IA32_PEBS_ENABLE, where the device has it.
    #[tactic(auto, unfolding(layouts::specs::Writes::precise_writes, layouts::specs::Layout::pebs_at))]
    fn put_precise(&mut self, device: Device, settings: &Settings)
        requires { HasRoom self.old (precise_writes device settings.now) }
        ensures { Puts self.old (precise_writes device settings.now) self.new }
    {
        if pebs_on(device) {
            self.put(PEBS_ENABLE, pebs_enable(&settings.words));
        }
    }

    // The list of the device's own registers.
    #[tactic(auto, using(crate::proofs::WriteLengths::length_parts, crate::proofs::Appending::length_rows, crate::proofs::WriteLengths::parts_small), unfolding(layouts::specs::Writes::zeros, requests::specs::Devices::capacity))]
    fn put_box(&mut self, setup: Setup, settings: &Settings)
        requires { HasRoom self.old (box_writes setup settings.now) }
        ensures { Puts self.old (box_writes setup settings.now) self.new }
    {
        let layout = layout_of(setup.device);
        let controls = Bank {
            count: counter_count(setup.device),
            base: layout.control,
            step: layout.step,
        };
        let counts = Bank {
            base: layout.counter,
            ..controls
        };
        let zeros = [0; CAPACITY];
        self.put(layout.global, first_global(setup));
        self.put_rows(controls, setup.usable, &zeros);
        self.put_filters(setup.device, settings);
        self.put_rows(counts, settings.used, &zeros);
        self.put_rows(controls, settings.used, &settings.words);
        self.put_precise(setup.device, settings);
        self.put(layout.global, last_global(setup, settings.used));
    }

    // A write to the U-Box, where something is asked.
    fn put_ubox(&mut self, setup: Setup, value: u64)
        requires { HasRoom self.old (row (asked setup) ubox_at value) }
        ensures { Puts self.old (row (asked setup) ubox_at value) self.new }
    {
        if asked(setup) {
            self.put(U_GLOBAL_CTL, value);
        }
    }
}

// The whole list, where it has room: between two writes of the U-Box where something is asked.
#[tactic(auto, using(crate::proofs::WriteLengths::length_framed, crate::proofs::Appending::length_row))]
pub fn put_list(out: &mut [u64], setup: Setup, settings: Settings) -> usize
    requires { 2 * length (writes_for setup settings) ≤ length out.old }
    ensures { Appended out.old 0 (writes_for setup settings) out.new result }
{
    let mut list = WriteList { out, at: 0 };
    list.put_ubox(setup, 0);
    list.put_box(setup, &settings);
    list.put_ubox(setup, ubox_value(setup));
    list.at
}

// The write list of the register values at the start of the slice; where it has no room, nothing.
pub fn write_list(out: &mut [u64], setup: Setup, settings: Settings) -> Result<usize, Refusal>
    ensures { Wrote (writes_for setup settings) out.old out.new result }
{
    let count = write_count(setup, settings);
    if out.len() < 2 * count {
        return Err(Refusal::SliceTooShort);
    }
    put_list(out, setup, settings);
    Ok(count)
}
