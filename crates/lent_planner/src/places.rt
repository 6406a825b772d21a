// The records changed in place, in one pass.
ghost use Rattle.std.specs.Prelude.{◌≡◌, ◌+◌, ◌<◌, ◌≤◌, ◌^◌, length};
ghost use Rattle.lent_planner.specs.Changes.{past, ahead, clear, stretch, read_at, Fitting, rearranged, shifted};

use crate::Change;
use planner::queue::vacant;
use requests::{CAPACITY, Entry};

// A number past all places.
pub const NOWHERE: usize = 65536;

// One place further, where the record that goes is not behind.
#[tactic(auto, unfolding(crate::specs::Changes::past))]
fn past(at: usize, k: usize) -> usize
    requires { k + 1 < 2 ^ 64 }
    ensures value { result ≡ past at k }
    ensures upper_bound { result ≤ k + 1 }
{
    if at <= k { k + 1 } else { k }
}

// Of the places from k on, at most `room`, those that stand before the record that goes; all of them, where it is behind.
#[tactic(auto, unfolding(crate::specs::Changes::clear))]
fn clear(at: usize, k: usize, room: usize) -> usize
    ensures value { result ≡ clear at k room }
    ensures upper_bound { result ≤ room }
{
    if at <= k { room } else { room.min(at - k) }
}

impl Change {
    // Each record from `from` to `end` becomes the one `skip` places ahead, and e past the end.
    #[tactic(auto, unfolding(crate::specs::Changes::shifted, crate::specs::Changes::nowhere))]
    pub fn shifted(from: usize, end: usize, skip: usize, e: Entry) -> Change
        ensures { result ≡ shifted from end skip e }
    {
        Change {
            from,
            end,
            skip,
            at: [NOWHERE; CAPACITY],
            fresh: [e; CAPACITY],
        }
    }

    // Where the record of place i is read, as if there were records past the end.
    #[tactic(auto, unfolding(crate::specs::Changes::ahead))]
    fn ahead(&self, i: usize) -> usize
        requires { i + self.now.skip + 8 < 2 ^ 64 }
        ensures value { result ≡ ahead self.now i }
        ensures upper_bound { result ≤ i + self.now.skip + 8 }
    {
        let mut k = i + self.skip;
        for &at in &self.at {
            k = past(at, k);
        }
        k
    }

    // How many places from i on are read equally far ahead.
    #[tactic(auto, unfolding(crate::specs::Changes::stretch, crate::specs::Changes::nowhere))]
    fn stretch(&self, i: usize) -> usize
        requires { i + self.now.skip + 8 < 2 ^ 64 }
        ensures value { result ≡ stretch self.now i }
        ensures upper_bound { result ≤ 65536 }
    {
        let mut k = i + self.skip;
        let mut room = NOWHERE;
        for &at in &self.at {
            room = clear(at, k, room);
            k = past(at, k);
        }
        room
    }

    // The record that is read at k, a fresh one past the end.
    #[tactic(auto, unfolding(crate::specs::Changes::read_at, sessions::specs::Sessions::vacant))]
    fn read_at(&self, rows: &[Entry], k: usize) -> Entry
        requires { self.now.end ≤ length rows.now }
        ensures { result ≡ read_at self.now k rows.now }
    {
        if k < self.end {
            return rows[k];
        }
        self.fresh.get(k - self.end).copied().unwrap_or(vacant())
    }

    // Each record from `from` to `end` becomes the one that is read for it. The two places move on together along a stretch, so that the records
    // that go are looked through once for each stretch.
    pub fn apply(&self, rows: &mut [Entry])
        requires { Fitting self.now (length rows.old) }
        ensures { rows.new ≡ rearranged self.now rows.old }
    {
        let mut k = 0;
        let mut stop = 0;
        for i in self.from..self.end {
            if stop <= i {
                k = self.ahead(i);
                stop = i + self.stretch(i);
            }
            rows[i] = self.read_at(rows, k);
            k += 1;
        }
    }
}
