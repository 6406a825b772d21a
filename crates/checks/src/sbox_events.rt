// The events of the S-Box with the manual's names, in the order of document 01, by their codes.
ghost use Rattle.std.specs.Prelude.{◌≡◌, ℕ};
ghost use Rattle.requests.specs.Lookup.{listing_of};
ghost use Rattle.checks.specs.RuleMasks.{listed_with};

use crate::mask_rules::MaskRule;
use requests::Device;

// The mask rule of a code.
#[tactic(auto, unfolding(crate::specs::RuleMasks::listed_with, crate::specs::RuleMasks::rule_in, requests::specs::Lookup::listing_of, requests::specs::Catalogue::events_of, requests::specs::Catalogue::code_in, requests::specs::Catalogue::pair_in, requests::specs::MaskRules::allows, requests::specs::Choice::both, requests::specs::Choice::either))]
pub fn rule_on_sbox(code: u8) -> Option<MaskRule>
    ensures { (m : ℕ) → listed_with result m ≡ listing_of Device.S code m }
{
    match code {
        0x51 => Some(MaskRule::UpTo(0x03)), // RBOX_SNP_BYPASS
        0x31 => Some(MaskRule::UpTo(0x03)), // REQ_TBL_OCCUPANCY
        0x52 => Some(MaskRule::Alone(0x00)), // S2B_HOM_BYPASS
        0x2B => Some(MaskRule::Alone(0x00)), // TO_RING_B2S_MSGQ_CYCLES_FULL
        0x2D => Some(MaskRule::Alone(0x00)), // TO_RING_B2S_MSGQ_CYCLES_NE
        0x2F => Some(MaskRule::Alone(0x00)), // TO_RING_B2S_MSGQ_OCCUPANCY
        _ => None,
    }
}
