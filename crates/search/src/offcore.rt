// Offcore requests placed.
ghost use Rattle.std.specs.Prelude.{◌≡◌, ◌<◌, ◌≤◌};
ghost use Rattle.requests.specs.declared.Request.TheVariants.{Offcore};
ghost use Rattle.search.specs.Rows.{request_at};
ghost use Rattle.search.specs.Left.{InRows, OnCounters};
ghost use Rattle.search.specs.Filters.{room_of};
ghost use Rattle.search.specs.Remaining.{plan_from};
ghost use Rattle.plans.specs.Packed.{packed};

use crate::counters::{Counters, available};
use crate::filters::holds_word;
use crate::left::{Left, without_counter};
use crate::remaining::Search;
use requests::CounterSet;

impl Search<'_> {
    // The plan from row `at` on, where an offcore request stands: each counter that is allowed and free is tried in order, with RSP0 and then
    // with RSP1.
    #[cycle(placing)]
    pub fn place_offcore(&self, at: usize, word: u64, allowed: CounterSet, left: Left) -> u64
        requires count_bound { (at < self.now.count) × InRows left × OnCounters self.now.counters left }
        requires allowed_value { Offcore word allowed ≡ request_at self.now.rows.now at }
        ensures { result ≡ packed (plan_from self.now.counters self.now.rows.now at self.now.count (room_of self.now.rows.now left)) }
    {
        let held0 = holds_word(self.rows, 0, left.rsp0, word);
        let held1 = holds_word(self.rows, 1, left.rsp1, word);
        let next = at + 1;
        for k in Counters(available(allowed, left.free)) {
            if held0 {
                let used = Left { rsp0: next, ..left };
                let rest = self.place_from(next, without_counter(used, k));
                if rest != 0 {
                    return rest * 64 + k * 8;
                }
            }
            if held1 {
                let used = Left { rsp1: next, ..left };
                let rest = self.place_from(next, without_counter(used, k));
                if rest != 0 {
                    return rest * 64 + k * 8 + 1;
                }
            }
        }
        0
    }
}
