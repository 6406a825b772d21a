// The first plan of requests in rows, packed into one number; 0 where there is none.
// Form: (a) the clauses over `packed` and the C interface (`rattle_plan_rows` of bench) hold the number.
ghost use Rattle.std.specs.Prelude.{false, ◌≡◌, ◌≤◌};
ghost use Rattle.requests.specs.Devices.{counter_count};
ghost use Rattle.requests.specs.EventRules.{has_rules};
ghost use Rattle.plans.specs.Search.{empty_room, plan_in, first_plan};
ghost use Rattle.plans.specs.Packed.{packed};
ghost use Rattle.search.specs.Rows.{rows_from};
ghost use Rattle.search.specs.Counters.{with_counters};

use crate::left::Left;
use crate::remaining::Search;
use crate::rows::ROW_NUMBERS;
use crate::ruled::{narrow_rows, quiet_kept};
use checks::devices::{all_counters, counter_count};
use checks::rules::has_rules;
use requests::{CounterSet, Device, Setup};

// The first plan of the requests in the first `count` rows as they are.
fn search_rows(device: Device, usable: CounterSet, rows: &[u64; ROW_NUMBERS], count: usize) -> u64
    requires { count ≤ 8 }
    ensures { result ≡ packed (plan_in (counter_count device) (rows_from rows.now 0 count) (empty_room (with_counters device usable))) }
{
    let left = Left {
        free: CounterSet(usable.0 & all_counters(device).0),
        rsp0: 0,
        rsp1: 0,
        packet: 0,
    };
    let search = Search {
        counters: counter_count(device),
        rows,
        count,
    };
    search.place_from(0, left)
}

// The first plan of the requests as the rules of events leave them. What it asks of the setup is given by itself, so that where there are no
// rules nothing is copied for it.
pub fn plan_ruled(
    device: Device,
    usable: CounterSet,
    rows: &[u64; ROW_NUMBERS],
    count: usize,
) -> u64
    requires { count ≤ 8 }
    ensures { result ≡ packed (first_plan (with_counters device usable) (rows_from rows.now 0 count)) }
{
    if !quiet_kept(device, usable, rows, count) {
        return 0;
    }
    let mut others = [0; ROW_NUMBERS];
    narrow_rows(device, rows, count, &mut others);
    search_rows(device, usable, &others, count)
}

// The first plan of the requests on a device whose events have no rules.
pub fn plan_unruled(setup: Setup, rows: &[u64; ROW_NUMBERS], count: usize) -> u64
    requires { (count ≤ 8) × (has_rules setup.device ≡ false) }
    ensures { result ≡ packed (first_plan setup (rows_from rows.now 0 count)) }
{
    search_rows(setup.device, setup.usable, rows, count)
}

// The first plan of the requests in the first `count` rows.
pub fn plan_rows(setup: Setup, rows: &[u64; ROW_NUMBERS], count: usize) -> u64
    requires { count ≤ 8 }
    ensures { result ≡ packed (first_plan setup (rows_from rows.now 0 count)) }
{
    if has_rules(setup.device) {
        return plan_ruled(setup.device, setup.usable, rows, count);
    }
    plan_unruled(setup, rows, count)
}
