// Sets of counters.
ghost use Rattle.std.specs.Prelude.{◌≡◌};
ghost use Rattle.requests.specs.Devices.{has, size};

use requests::CounterSet;

// Whether the set has the counter. No set of 64 bits has a counter above 63.
#[tactic(auto, unfolding(requests::specs::Devices::has, requests::specs::Bits::bit), using(requests::proofs::Words::bit_past))]
pub fn has(set: CounterSet, counter: u64) -> bool
    ensures { result ≡ has set counter }
{
    counter < 64 && (set.0 >> counter) % 2 == 1
}

// How many counters below count the set has.
#[tactic(auto, unfolding(requests::specs::Devices::size))]
pub fn size_of(count: u64, set: CounterSet) -> usize
    ensures { result ≡ size count set }
{
    let mut size = 0;
    for counter in 0..count {
        if has(set, counter) {
            size += 1;
        }
    }
    size
}
