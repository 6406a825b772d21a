// Latency requests placed.
ghost use Rattle.std.specs.Prelude.{◌≡◌, ◌<◌, ◌≤◌};
ghost use Rattle.requests.specs.declared.Request.TheVariants.{Latency};
ghost use Rattle.search.specs.Rows.{request_at};
ghost use Rattle.search.specs.Left.{InRows, OnCounters};
ghost use Rattle.search.specs.Filters.{room_of};
ghost use Rattle.search.specs.Remaining.{plan_from};
ghost use Rattle.plans.specs.Packed.{packed};

use crate::counters::{Counters, available};
use crate::filters::holds_word;
use crate::left::{Left, without_counter};
use crate::remaining::Search;
use checks::bits::latency_word;
use requests::CounterSet;

impl Search<'_> {
    // The plan from row `at` on, where a latency request stands: each first counter that is allowed and free is tried in order, and the second
    // is placed behind it like that of a request which takes one counter.
    #[cycle(placing)]
    pub fn place_latency(
        &self,
        at: usize,
        types: u16,
        firsts: CounterSet,
        seconds: CounterSet,
        left: Left,
    ) -> u64
        requires count_bound { (at < self.now.count) × InRows left × OnCounters self.now.counters left }
        requires seconds_value { Latency types firsts seconds ≡ request_at self.now.rows.now at }
        ensures { result ≡ packed (plan_from self.now.counters self.now.rows.now at self.now.count (room_of self.now.rows.now left)) }
    {
        if !holds_word(self.rows, 0, left.rsp0, latency_word(0, types)) {
            return 0;
        }
        if !holds_word(self.rows, 1, left.rsp1, latency_word(1, types)) {
            return 0;
        }
        let next = at + 1;
        let used = Left {
            rsp0: next,
            rsp1: next,
            ..left
        };
        for j in Counters(available(firsts, used.free)) {
            let rest = self.place_counter(next, seconds, without_counter(used, j));
            if rest != 0 {
                // The second counter stands where a counter alone does, and goes behind the first.
                return rest / 64 * 64 + j * 8 + rest % 64 / 8;
            }
        }
        0
    }
}
