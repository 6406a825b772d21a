// The mask rules: which unit masks an event has.
ghost use Rattle.std.specs.Prelude.{◌≡◌};
ghost use Rattle.requests.specs.MaskRules.{allows};
ghost use Rattle.checks.specs.RuleMasks.{rule_in};

// SINKS_P2C, SINKS_C2P, SINKS_S2C.
const SINK_MASKS: [u8; 3] = [
    0x01, // AD, with SINKS_C2P IV
    0x02, // AK
    0x04, // BL
];

// ARB_WINS, ARB_LOSSES.
const RING_MASKS: [u8; 11] = [
    0x01, // AD_SB
    0x02, // AD_NSB
    0x03, // AD_ALL
    0x04, // AK_SB
    0x08, // AK_NSB
    0x0C, // AK_ALL
    0x10, // BL_SB
    0x20, // BL_NSB
    0x30, // BL_ALL
    0x40, // IV
    0x7F, // ALL
];

// STARVED_EGRESS.
const STARVED_MASKS: [u8; 12] = [
    0x01, // P2C_AD_SB
    0x02, // C2S_AD_SB
    0x03, // AD_SB
    0x04, // AD_NSB
    0x07, // AD
    0x08, // AK_SB
    0x10, // AK_NSB
    0x18, // AK
    0x20, // BL_SB
    0x40, // BL_NSB
    0x60, // BL
    0x80, // IV
];

// EGRESS_BYPASS_WINS.
const BYPASS_MASKS: [u8; 8] = [
    0x01, // AD_BYP0
    0x02, // AD_BYP1
    0x04, // AK_BYP0
    0x08, // AK_BYP1
    0x10, // BL_BYP0
    0x20, // BL_BYP1
    0x40, // IV_BYP0
    0x80, // IV_BYP1
];

// Which unit masks an event has.
#[derive(Clone, Copy)]
pub enum MaskRule {
    Lost, // none: the manual's rows of them are lost
    Alone(u8),
    Either(u8, u8),
    UpTo(u8), // from 01 on
    Sinks,
    Rings,
    Starved,
    Bypasses,
}

impl MaskRule {
    // Whether the rule lists the unit mask.
    #[tactic(auto, unfolding(crate::specs::RuleMasks::rule_in, requests::specs::MaskRules::allows, requests::specs::Bits::in_list, requests::specs::Choice::both, requests::specs::Choice::either, requests::specs::CBoxEvents::sink_masks, requests::specs::CBoxEvents::ring_masks, requests::specs::CBoxEvents::starved_masks, requests::specs::CBoxEvents::bypass_masks), using(crate::proofs::Members::any_in))]
    pub fn lists(self, mask: u8) -> bool
        ensures { result ≡ allows (rule_in self) mask }
    {
        match self {
            MaskRule::Lost => false,
            MaskRule::Alone(only) => mask == only,
            MaskRule::Either(first, second) => mask == first || mask == second,
            MaskRule::UpTo(last) => (0x01..=last).contains(&mask),
            MaskRule::Sinks => SINK_MASKS.contains(&mask),
            MaskRule::Rings => RING_MASKS.contains(&mask),
            MaskRule::Starved => STARVED_MASKS.contains(&mask),
            MaskRule::Bypasses => BYPASS_MASKS.contains(&mask),
        }
    }
}
