// The field at fault, beside the number: of a refusal or an answer that is known, and as the checks of a request and an opening give it.
ghost use Rattle.std.specs.Prelude.{◌≡◌};
ghost use Rattle.requests.specs.Faults.{checked_as, opening_fault, request_fault, field_of, answer_field};

use crate::check::request_refusal;
use crate::devices::setup_of;
use crate::fields::{opening_fields, request_fields};
use requests::{Answer, Fault, Fields, Opening, Refusal, Request, Setup};

// The field at fault under a refusal of a call with these fields.
#[tactic(auto, unfolding(requests::specs::Faults::field_of))]
pub fn field_of(x: Refusal, fields: Fields) -> usize
    ensures { result ≡ field_of x fields }
{
    match x {
        Refusal::BadOpening => fields.opening,
        Refusal::Incomplete => fields.lack,
        Refusal::OutOfRange => fields.range,
        Refusal::BadId | Refusal::IdWaiting | Refusal::IdNotWaiting => 1,
        Refusal::NotListed | Refusal::Conflicting => 2,
        Refusal::NotInGrammar
        | Refusal::CallOrder
        | Refusal::KindNotOnDevice
        | Refusal::NoPlanAlone
        | Refusal::QueueFull
        | Refusal::SliceTooShort
        | Refusal::NotLeftByPlan => 0,
    }
}

// The field at fault of an answer, 0 where the call is accepted.
#[tactic(auto, unfolding(requests::specs::Faults::answer_field))]
pub fn answer_field(answer: Answer, fields: Fields) -> usize
    ensures { result ≡ answer_field answer fields }
{
    match answer {
        Ok(()) => 0,
        Err(refusal) => field_of(refusal, fields),
    }
}

// The first of the rows 7, 8, 10, 9, 11 that applies, with the leftmost field at fault under it.
#[tactic(auto, using(requests::proofs::FaultRows::request_told, requests::proofs::FaultRows::passed_told, requests::proofs::FaultRows::failed_told))]
pub fn request_fault(setup: Setup, request: Request) -> Result<(), Fault>
    ensures { result ≡ checked_as (request_fault setup request) }
{
    request_refusal(setup, request).map_err(|refusal| Fault {
        refusal,
        field: field_of(refusal, request_fields(setup.device, request)),
    })
}

// The first of the rows 3, 7, 10 that applies to an opening, with the leftmost field at fault under it.
#[tactic(auto, using(requests::proofs::FaultRows::opening_passes, requests::proofs::FaultRows::opening_fails))]
pub fn opening_fault(o: Opening) -> Result<(), Fault>
    ensures { result ≡ checked_as (opening_fault o) }
{
    setup_of(o).map(|_| ()).map_err(|refusal| Fault {
        refusal,
        field: field_of(refusal, opening_fields(o)),
    })
}
