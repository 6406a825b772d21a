// The events of the C-Box with the manual's names (document 004, 2.3.5), by their codes.
ghost use Rattle.std.specs.Prelude.{map};
ghost use Rattle.requests.specs.CBoxEvents.{cbox_events};
ghost use Rattle.requests.specs.Lookup.{row_of};
ghost use Rattle.requests.specs.ByCode.{table_of, found_in};
ghost use Rattle.checks.specs.RuleMasks.{IsEntry};

use crate::mask_rules::MaskRule;

// The mask rule of a code: one entry of the table by code is read.
#[tactic(auto, unfolding(crate::specs::RuleMasks::IsEntry, crate::specs::RuleMasks::rule_in, requests::specs::Lookup::row_of, requests::specs::Lookup::rule_at, requests::specs::CBoxEvents::cbox_events, requests::specs::Lookup::mask_rules, requests::specs::Lookup::place_of, requests::specs::Lookup::same_rule, requests::specs::Lookup::same_numbers, requests::specs::Choice::both, requests::specs::CBoxEvents::sink_masks, requests::specs::CBoxEvents::ring_masks, requests::specs::CBoxEvents::starved_masks, requests::specs::CBoxEvents::bypass_masks, requests::specs::ByCode::found_in, requests::specs::ByCode::table_of, requests::specs::ByCode::put_at))]
pub fn rule_on_cbox(code: u8) -> Option<MaskRule>
    ensures { IsEntry code result (found_in (table_of (map row_of cbox_events)) code).row }
{
    match code {
        0x01 => Some(MaskRule::UpTo(0x03)), // BOUNCES_P2C_AD
        0x02 => Some(MaskRule::UpTo(0x03)), // BOUNCES_C2P_AK
        0x03 => Some(MaskRule::UpTo(0x03)), // BOUNCES_C2P_BL
        0x04 => Some(MaskRule::Alone(0x00)), // BOUNCES_C2P_IV
        0x05 => Some(MaskRule::Sinks), // SINKS_P2C
        0x06 => Some(MaskRule::Sinks), // SINKS_C2P
        0x07 => Some(MaskRule::Sinks), // SINKS_S2C
        0x08 => Some(MaskRule::Alone(0x00)), // SINKS_S2P_BL
        0x09 => Some(MaskRule::Rings), // ARB_WINS
        0x0A => Some(MaskRule::Rings), // ARB_LOSSES
        0x0B => Some(MaskRule::Starved), // STARVED_EGRESS
        0x0C => Some(MaskRule::Bypasses), // EGRESS_BYPASS_WINS
        0x0E => Some(MaskRule::Lost), // INGRESS_BYPASS_WINS_AD: the rows of its masks are lost
        0x14 => Some(MaskRule::UpTo(0x07)), // LLC_MISSES
        0x16 => Some(MaskRule::UpTo(0x0F)), // LLC_S_FILLS
        0x17 => Some(MaskRule::UpTo(0x1F)), // LLC_VICTIMS
        0x18 => Some(MaskRule::Alone(0x00)), // OCCUPANCY_IRQ
        0x19 => Some(MaskRule::Alone(0x00)), // TRANS_IRQ
        0x1A => Some(MaskRule::Alone(0x00)), // OCCUPANCY_IPQ
        0x1B => Some(MaskRule::Alone(0x00)), // TRANS_IPQ
        0x1C => Some(MaskRule::Alone(0x00)), // OCCUPANCY_VIQ
        0x1D => Some(MaskRule::Alone(0x00)), // TRANS_VIQ
        0x1E => Some(MaskRule::Alone(0x00)), // OCCUPANCY_MAF
        0x1F => Some(MaskRule::Alone(0x00)), // TRANS_MAF
        0x20 => Some(MaskRule::Alone(0x00)), // OCCUPANCY_RWRF
        0x21 => Some(MaskRule::Alone(0x00)), // TRANS_RWRF
        0x22 => Some(MaskRule::Alone(0x00)), // OCCUPANCY_RSPF
        0x23 => Some(MaskRule::Alone(0x00)), // TRANS_RSPF
        0x27 => Some(MaskRule::UpTo(0x03)), // SNPS
        0x28 => Some(MaskRule::UpTo(0xFF)), // SNP_HITS
        _ => None,
    }
}
