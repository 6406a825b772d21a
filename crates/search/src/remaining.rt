// The plan of the requests that remain on n counters, packed into one number, found by placing them one after another.
// Everywhere 0 is no plan. `next` is the row behind the request that is placed, and so also its number as a register's user.
// Form: (b) with an Option<u64> in place of the number a search takes 5 to 7 % more instructions.
ghost use Rattle.std.specs.Prelude.{◌≡◌, ◌≤◌};
ghost use Rattle.search.specs.Left.{InRows, OnCounters};
ghost use Rattle.search.specs.Filters.{room_of};
ghost use Rattle.search.specs.Remaining.{plan_from, plan_counter};
ghost use Rattle.plans.specs.Packed.{packed};

use crate::counters::{Counters, available};
use crate::filters::holds_packet;
use crate::left::{Left, without_counter};
use crate::rows::{ROW_NUMBERS, request_at};
use requests::{CounterSet, Request};

// The requests in the first `count` rows, for a device with these counters.
#[derive(Clone, Copy)]
pub struct Search<'a> {
    pub counters: u64,
    pub rows: &'a [u64; ROW_NUMBERS],
    pub count: usize,
    ghost few: { count ≤ 8 },
}

impl Search<'_> {
    // The plan of a request that takes one counter, and of the rest from row `next` on: each counter that is allowed and free is tried in
    // order.
    #[cycle(placing)]
    pub fn place_counter(&self, next: usize, allowed: CounterSet, left: Left) -> u64
        requires { (1 ≤ next) × (next ≤ self.now.count) × InRows left × OnCounters self.now.counters left }
        ensures { result ≡ packed (plan_counter self.now.counters self.now.rows.now next self.now.count allowed (room_of self.now.rows.now left)) }
    {
        for k in Counters(available(allowed, left.free)) {
            let rest = self.place_from(next, without_counter(left, k));
            if rest != 0 {
                return rest * 64 + k * 8;
            }
        }
        0
    }

    // The plan from row `at` on: that row's request is given each of its places in order, and the rest is planned in the room that is left.
    #[cycle(placing)]
    pub fn place_from(&self, at: usize, left: Left) -> u64
        requires { (at ≤ self.now.count) × InRows left × OnCounters self.now.counters left }
        ensures { result ≡ packed (plan_from self.now.counters self.now.rows.now at self.now.count (room_of self.now.rows.now left)) }
    {
        if at == self.count {
            return 1;
        }
        let next = at + 1;
        match request_at(self.rows, at) {
            Request::Event { allowed, .. } => self.place_counter(next, allowed, left),
            Request::Packet {
                match_word,
                mask_word,
                allowed,
            } => {
                if holds_packet(self.rows, left.packet, match_word, mask_word) {
                    let used = Left {
                        packet: next,
                        ..left
                    };
                    return self.place_counter(next, allowed, used);
                }
                0
            }
            Request::Offcore { word, allowed } => { self.place_offcore(at, word, allowed, left) }
            Request::Latency {
                types,
                first,
                second,
            } => self.place_latency(at, types, first, second, left),
        }
    }
}
