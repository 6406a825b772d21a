// What a turn takes of the lent records.
ghost use Rattle.std.specs.Prelude.{◌≡◌, true, []};
ghost use Rattle.lent_sessions.specs.Records.{standing};
ghost use Rattle.lent_planner.specs.Choices.{HasChosen, Ready, LeavesNone, Chose};

use crate::Choice;
use crate::places::NOWHERE;
use checks::devices::counter_count;
use planner::queue::vacant;
use planner::select::{EMPTY_PLAN, plan_with, usable_count};
use requests::{CAPACITY, Entry, Setup};
use search::reach::{left_at_first, left_by};
use search::rows::ROW_NUMBERS;

impl Choice {
    // A choice that has not begun.
    #[tactic(auto, unfolding(requests::specs::Devices::capacity, crate::specs::Changes::nowhere))]
    fn begun(setup: Setup) -> Choice
        ensures { HasChosen setup [] result }
    {
        Choice {
            setup,
            usable: usable_count(setup),
            counters: counter_count(setup.device),
            plan: EMPTY_PLAN,
            left: left_at_first(setup.usable),
            rows: [0; ROW_NUMBERS],
            taken: [vacant(); CAPACITY],
            at: [NOWHERE; CAPACITY],
            count: 0,
        }
    }

    // Whether the record, which waits, leaves no set of counters beside those taken, of at most six usable ones.
    fn leaves_none(&self, e: &Entry) -> bool
        requires ready { Ready self.now }
        requires waits { e.now.id ≡ 0 → ⊥ }
        ensures { result ≡ true → LeavesNone self.now e.now }
    {
        self.setup.usable.0 < 64 && left_by(self.counters, e.request, self.left) == 0
    }

    // Record i is taken where it and those taken have a plan.
    fn choose(&mut self, i: usize, e: &Entry)
        requires { Ready self.old }
        ensures { Chose self.old i e.now self.new }
    {
        let Some(found) = plan_with(
            self.setup,
            self.usable,
            self.counters,
            self.left,
            self.plan,
            &mut self.rows,
            self.count,
            e.request,
        ) else {
            return;
        };
        self.plan = found.code;
        self.left = found.left;
        self.taken[self.count] = *e;
        self.at[self.count] = i;
        self.count += 1;
    }
}

// What a turn takes of the records, from the front. Nothing is looked at from the first vacant record on, and once as many are taken as
// counters are usable.
pub fn select(rows: &[Entry], setup: Setup) -> Choice
    ensures { HasChosen setup (standing rows.now) result }
{
    let mut t = Choice::begun(setup);
    for (i, e) in rows.iter().enumerate() {
        if e.id == 0 || t.usable <= t.count {
            break;
        }
        if !t.leaves_none(e) {
            t.choose(i, e);
        }
    }
    t
}
