// Where events run: the rules of B's two precise events (document 003, 18.9.4).
ghost use Rattle.std.specs.Prelude.{◌≡◌};
ghost use Rattle.requests.specs.EventRules.{rule_on_b, has_rules, rule_of, rule_for};

use requests::{Device, EventRule, Request};

// The rule of an event on B: C0/01 is INST_RETIRED.ALL in its PDIR use, CD/02 MEM_TRANS_RETIRED.PRECISE_STORE.
#[tactic(auto, unfolding(requests::specs::EventRules::rule_on_b, requests::specs::Choice::both))]
fn rule_on_b(code: u8, mask: u8) -> EventRule
    ensures { result ≡ rule_on_b code mask }
{
    match (code, mask) {
        (0xC0, 0x01) => EventRule::AloneOn(1),
        (0xCD, 0x02) => EventRule::OnlyOn(3),
        _ => EventRule::Anywhere,
    }
}

// Whether some event of the device has a rule.
#[tactic(auto, unfolding(requests::specs::EventRules::has_rules))]
pub fn has_rules(device: Device) -> bool
    ensures { result ≡ has_rules device }
{
    matches!(device, Device::B)
}

// The rule of an event.
#[tactic(auto, unfolding(requests::specs::EventRules::rule_of))]
pub fn rule_of(device: Device, code: u8, mask: u8) -> EventRule
    ensures { result ≡ rule_of device code mask }
{
    if has_rules(device) {
        rule_on_b(code, mask)
    } else {
        EventRule::Anywhere
    }
}

// The rule of a request.
#[tactic(auto, unfolding(requests::specs::EventRules::rule_for))]
pub fn rule_for(device: Device, request: Request) -> EventRule
    ensures { result ≡ rule_for device request }
{
    match request {
        Request::Event { code, mask, .. } => rule_of(device, code, mask),
        Request::Packet { .. } | Request::Offcore { .. } | Request::Latency { .. } => {
            EventRule::Anywhere
        }
    }
}
