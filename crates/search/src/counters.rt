// Counters taken from the free ones.
ghost use Rattle.std.specs.Prelude.{true, ◌≡◌, ℕ, MatchOption};
ghost use Rattle.std.specs.Iterator.{at_most};
ghost use Rattle.requests.specs.Devices.{has};
ghost use Rattle.search.specs.Counters.{available, Least, without};

use requests::CounterSet;

// The counters that are allowed and free.
#[tactic(auto, unfolding(crate::specs::Counters::available, requests::specs::Devices::has))]
pub fn available(allowed: CounterSet, free: CounterSet) -> CounterSet
    ensures { (k : ℕ) → has result k ≡ available allowed free k }
{
    CounterSet(allowed.0 & free.0)
}

// The set without counter k, which it has.
pub fn without(set: CounterSet, k: u64) -> CounterSet
    requires { has set k ≡ true }
    ensures { result ≡ without set k }
{
    CounterSet(set.0 - (1 << k))
}

// The counters of a set, the least first.
#[derive(Clone, Copy)]
pub struct Counters(pub CounterSet);

impl Iterator for Counters {
    type Item = u64;

    ghost next_gives = { λ s r t. MatchOption r (s.0.0 ≡ 0) (λ k. Least s.0 k t.0) };

    ghost remaining = { λ s. at_most s.0.0 };

    #[inline]
    fn next(&mut self) -> Option<u64> {
        let set = self.0;
        if set.0 == 0 {
            return None;
        }
        let k = set.0.trailing_zeros() as u64;
        self.0 = without(set, k);
        Some(k)
    }
}
