// The field at fault of an open with lent records.
ghost use Rattle.std.specs.Prelude.{◌≡◌};
ghost use Rattle.lent_sessions.specs.LentFaultTable.{lent_opening_fields};

use crate::rules::is_count;
use checks::fields::{no_fields, opening_fields};
use requests::{Fields, Opening};

// The fields of an open with n records. Those of the other calls are as in a small session.
#[tactic(auto, unfolding(lent_sessions::specs::LentFaultTable::lent_opening_fields))]
pub fn lent_opening_fields(n: usize, o: Opening) -> Fields
    ensures { result ≡ lent_opening_fields n o }
{
    if is_count(n) {
        opening_fields(o)
    } else {
        no_fields()
    }
}
