// The two values of the global control register: others' bits stay set, and the fixed enables stand as the session was opened with them.
ghost use Rattle.std.specs.Prelude.{◌≡◌};
ghost use Rattle.layouts.specs.Writes.{fixed_enables, first_global, last_global};

use checks::devices::{all_counters, all_fixed};
use requests::{CounterSet, Setup};

// The enable of the first fixed counter: bit 32.
const FIXED_0: u64 = 0x1_0000_0000;

// The enables of the fixed counters.
#[tactic(auto, using(crate::proofs::GlobalControl::all_fixed_small, crate::proofs::GlobalControl::fixed_rest))]
fn fixed_enables(setup: Setup) -> u64
    ensures { result ≡ fixed_enables setup }
{
    setup.fixed % (all_fixed(setup.device) + 1) * FIXED_0
}

// The first value: the fixed enables and the bits of the unusable counters.
#[tactic(auto, using(crate::proofs::GlobalControl::all_small, crate::proofs::GlobalControl::all_number, crate::proofs::GlobalControl::fixed_small))]
pub fn first_global(setup: Setup) -> u64
    ensures { result ≡ first_global setup }
{
    let all = all_counters(setup.device).0;
    let ours = setup.usable.0 % (all + 1);
    fixed_enables(setup) + (all - ours)
}

// The last value: those and the bits of the used ones.
#[tactic(auto, using(crate::proofs::GlobalControl::all_small, crate::proofs::GlobalControl::all_number, crate::proofs::GlobalControl::first_small, crate::proofs::GlobalControl::rest_small))]
pub fn last_global(setup: Setup, used: CounterSet) -> u64
    ensures { result ≡ last_global setup used.0 }
{
    let all = all_counters(setup.device).0;
    first_global(setup) + used.0 % (all + 1)
}
