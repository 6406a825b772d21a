// What a session may ask for the overflow of a counter.
ghost use Rattle.std.specs.Prelude.{◌≡◌};
ghost use Rattle.requests.specs.Askings.{overflow_on, unasked, asks, asked, overflow_not_on, overflow_fits};

use requests::{Device, Overflow, Setup};

// The cores that the field of the interrupt has a bit for.
pub const CORE_COUNT: u64 = 8;

// Whether the device's sessions may ask something.
#[tactic(auto, unfolding(requests::specs::Askings::overflow_on))]
pub fn overflow_on(d: Device) -> bool
    ensures { result ≡ overflow_on d }
{
    matches!(d, Device::S | Device::C(_))
}

// Nothing is asked.
#[tactic(auto, unfolding(requests::specs::Askings::unasked))]
pub fn unasked() -> Overflow
    ensures { result ≡ unasked }
{
    Overflow {
        freeze: 0,
        core: None,
    }
}

// Whether something is asked.
#[tactic(auto, unfolding(requests::specs::Askings::asks, requests::specs::Askings::core_given, requests::specs::Choice::either))]
pub fn asks(a: Overflow) -> bool
    ensures { result ≡ asks a }
{
    a.freeze != 0 || a.core.is_some()
}

// Whether a session asks something of the U-Box.
#[tactic(auto, unfolding(requests::specs::Askings::asked, requests::specs::Choice::both))]
pub fn asked(setup: Setup) -> bool
    ensures { result ≡ asked setup }
{
    overflow_on(setup.device) && asks(setup.overflow)
}

// Whether something is asked that the device does not do.
#[tactic(auto, unfolding(requests::specs::Askings::overflow_not_on, requests::specs::Choice::both))]
pub fn overflow_not_on(d: Device, a: Overflow) -> bool
    ensures { result ≡ overflow_not_on d a }
{
    asks(a) && !overflow_on(d)
}

// Whether what is asked is in range: the freeze, and a core that is given.
#[tactic(auto, unfolding(requests::specs::Askings::overflow_fits, requests::specs::Askings::core_fits, requests::specs::Askings::core_count, requests::specs::Choice::both))]
pub fn overflow_fits(a: Overflow) -> bool
    ensures { result ≡ overflow_fits a }
{
    a.freeze <= 1 && a.core.is_none_or(|core| core < CORE_COUNT)
}
