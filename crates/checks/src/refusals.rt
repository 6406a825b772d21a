// The numbers of the refusals.
ghost use Rattle.std.specs.Prelude.{◌≡◌};
ghost use Rattle.requests.specs.Refusals.{number_of};

use requests::Refusal;

// The number in the refusal table.
// Form: (d) a table, as on paper, shows each number; a cast of the variant would hide them in the order of another crate's enum.
#[tactic(auto, unfolding(requests::specs::Refusals::number_of))]
pub fn number_of(x: Refusal) -> u64
    ensures { result ≡ number_of x }
{
    match x {
        Refusal::NotInGrammar => 1,
        Refusal::CallOrder => 2,
        Refusal::BadOpening => 3,
        Refusal::BadId => 4,
        Refusal::IdWaiting => 5,
        Refusal::IdNotWaiting => 6,
        Refusal::KindNotOnDevice => 7,
        Refusal::NotListed => 8,
        Refusal::Incomplete => 9,
        Refusal::OutOfRange => 10,
        Refusal::Conflicting => 11,
        Refusal::NoPlanAlone => 12,
        Refusal::QueueFull => 13,
        Refusal::SliceTooShort => 14,
        Refusal::NotLeftByPlan => 15,
    }
}
