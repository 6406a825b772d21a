// IA32_PEBS_ENABLE of B: its value follows from the control words.
ghost use Rattle.std.specs.Prelude.{◌≡◌, get_or};
ghost use Rattle.requests.specs.Choice.{pick};
ghost use Rattle.layouts.specs.Layout.{pebs_on, is_event};
ghost use Rattle.layouts.specs.Writes.{pebs_enable};

use crate::tables::{code_of, mask_of};
use requests::{CAPACITY, Device};

pub const PEBS_ENABLE: u64 = 0x03F1; // order 12: IA32_PEBS_ENABLE

const INST_RETIRED: u8 = 0xC0; // document 003, 18.9.4.4, and order 12: INST_RETIRED.ALL

const ALL_UMASK: u8 = 0x01;

const PDIR: u64 = 0x0000_0000_0000_0002; // document 003, 18.9.4.4: bit 1

const MEM_TRANS_RETIRED: u8 = 0xCD; // document 003, page 18-57, and order 12: MEM_TRANS_RETIRED.PRECISE_STORE

const PRECISE_STORE_UMASK: u8 = 0x02;

const PRECISE_STORE: u64 = 0x8000_0000_0000_0008; // document 003, page 18-57: bits 3 and 63

// Whether the device has the register.
#[tactic(auto, unfolding(layouts::specs::Layout::pebs_on))]
pub fn pebs_on(device: Device) -> bool
    ensures { result ≡ pebs_on device }
{
    match device {
        Device::G | Device::S | Device::C(_) => false,
        Device::B => true,
    }
}

// The bits, where the control word has the event.
#[tactic(auto, unfolding(layouts::specs::Layout::is_event, requests::specs::Choice::both))]
fn bits_where(code: u8, mask: u8, word: u64, bits: u64) -> u64
    ensures { result ≡ pick (is_event code mask word) bits 0 }
{
    if code_of(word) == code && mask_of(word) == mask {
        bits
    } else {
        0
    }
}

// The value beside the control words.
#[tactic(auto, unfolding(layouts::specs::Writes::pebs_enable, layouts::specs::Layout::precise_store))]
pub fn pebs_enable(words: &[u64; CAPACITY]) -> u64
    ensures { result ≡ pebs_enable (λ k. get_or words.now k 0) }
{
    let pdir = bits_where(INST_RETIRED, ALL_UMASK, words[1], PDIR);
    let store = bits_where(
        MEM_TRANS_RETIRED,
        PRECISE_STORE_UMASK,
        words[3],
        PRECISE_STORE,
    );
    pdir + store
}
