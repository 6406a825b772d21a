// What a catalogue lists of an event.
ghost use Rattle.std.specs.Prelude.{◌≡◌, ℕ};
ghost use Rattle.requests.specs.Lookup.{listing_of};
ghost use Rattle.checks.specs.RuleMasks.{listed_with};

use crate::cbox_events::rule_on_cbox;
use crate::mask_rules::MaskRule;
use crate::sbox_events::rule_on_sbox;
use requests::{Device, Listing};

// What is listed of a code that the catalogue does not have.
pub const UNLISTED: Listing = Listing {
    code: false,
    pair: false,
};

// The mask rule of a code on G. A host that lends its records has it looked up for each of them at each call.
#[tactic(auto, unfolding(crate::specs::RuleMasks::listed_with, crate::specs::RuleMasks::rule_in, requests::specs::Bits::in_list, requests::specs::Lookup::listing_of, requests::specs::Catalogue::events_of, requests::specs::Catalogue::architectural_events, requests::specs::Catalogue::code_in, requests::specs::Catalogue::pair_in, requests::specs::MaskRules::allows, requests::specs::Choice::both, requests::specs::Choice::either))]
fn rule_on_core(code: u8) -> Option<MaskRule>
    ensures { (m : ℕ) → listed_with result m ≡ listing_of Device.G code m }
{
    match code {
        0x3C => Some(MaskRule::Either(0x00, 0x01)), // UnHalted Core Cycles, UnHalted Reference Cycles
        0x2E => Some(MaskRule::Either(0x4F, 0x41)), // LLC Reference, LLC Misses
        0xC0 => Some(MaskRule::Alone(0x00)), // Instruction Retired
        0xC4 => Some(MaskRule::Alone(0x00)), // Branch Instruction Retired
        0xC5 => Some(MaskRule::Alone(0x00)), // Branch Misses Retired
        _ => None,
    }
}

// The mask rule of a code on B: those of G, and the two precise events.
#[tactic(auto, unfolding(crate::specs::RuleMasks::listed_with, crate::specs::RuleMasks::rule_in, requests::specs::Bits::in_list, requests::specs::Lookup::listing_of, requests::specs::Catalogue::events_of, requests::specs::Catalogue::architectural_events, requests::specs::Catalogue::precise_events, requests::specs::Catalogue::code_in, requests::specs::Catalogue::pair_in, requests::specs::MaskRules::allows, requests::specs::Choice::both, requests::specs::Choice::either))]
fn rule_on_precise_core(code: u8) -> Option<MaskRule>
    ensures { (m : ℕ) → listed_with result m ≡ listing_of Device.B code m }
{
    match code {
        0xC0 => Some(MaskRule::Either(0x00, 0x01)), // Instruction Retired, INST_RETIRED.ALL
        0xCD => Some(MaskRule::Alone(0x02)), // MEM_TRANS_RETIRED.PRECISE_STORE
        _ => rule_on_core(code),
    }
}

// The mask rule that the device's catalogue has for the code.
fn mask_rule_of(device: Device, code: u8) -> Option<MaskRule>
    ensures { (m : ℕ) → listed_with result m ≡ listing_of device code m }
{
    match device {
        Device::G => rule_on_core(code),
        Device::S => rule_on_sbox(code),
        Device::C(_) => rule_on_cbox(code),
        Device::B => rule_on_precise_core(code),
    }
}

// What the device's catalogue lists of the code and the unit mask.
#[tactic(auto, unfolding(crate::specs::RuleMasks::listed_with))]
pub fn look_up(device: Device, code: u8, mask: u8) -> Listing
    ensures { result ≡ listing_of device code mask }
{
    match mask_rule_of(device, code) {
        Some(rule) => Listing {
            code: true,
            pair: rule.lists(mask),
        },
        None => UNLISTED,
    }
}
