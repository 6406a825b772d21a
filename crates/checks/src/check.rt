// The checks of a request on a device: refusals 7 to 11.
ghost use Rattle.std.specs.Prelude.{◌≡◌, not};
ghost use Rattle.requests.specs.Choice.{both};
ghost use Rattle.requests.specs.Devices.{pairs_judged};
ghost use Rattle.requests.specs.Catalogue.{mask_not_listed};
ghost use Rattle.requests.specs.Lookup.{listing_for};
ghost use Rattle.requests.specs.Checks.{kind_not_on, not_listed_lem, too_wide, out_of_range, incomplete, conflicting, request_refusal};
ghost use Rattle.requests.specs.Refusals.{answer_for};

use crate::bits::{
    ANSWERS, ANY_RESPONSE, MASK, MATCH, OUTSTANDING, PERMITTED, RESPONSES_OR_OUTSTANDING, TYPES,
    any_bit, only_bits,
};
use crate::catalogue::{UNLISTED, look_up};
use crate::devices::{all_counters, offcore_on, packets_on, pairs_judged};
use requests::{Answer, CounterSet, Device, Listing, Refusal, Request, Setup};

// 7: whether the device has no requests of this kind.
#[tactic(auto, unfolding(requests::specs::Checks::kind_not_on))]
fn kind_not_on(device: Device, request: Request) -> bool
    ensures { result ≡ kind_not_on device request }
{
    match request {
        Request::Event { .. } => false,
        Request::Packet { .. } => !packets_on(device),
        Request::Offcore { .. } | Request::Latency { .. } => !offcore_on(device),
    }
}

// What the device's catalogue lists of an event; other requests are in no catalogue.
#[tactic(auto, unfolding(requests::specs::Lookup::listing_for))]
fn listing_for(device: Device, request: Request) -> Listing
    ensures { result ≡ listing_for device request }
{
    match request {
        Request::Event { code, mask, .. } => look_up(device, code, mask),
        Request::Packet { .. } | Request::Offcore { .. } | Request::Latency { .. } => UNLISTED,
    }
}

// Whether the code is listed, but not with the mask: not judged where the pair is one.
#[tactic(auto, unfolding(requests::specs::Choice::both))]
fn mask_missing(device: Device, listing: Listing) -> bool
    ensures { result ≡ both (not (pairs_judged device)) (both listing.code (not listing.pair)) }
{
    !pairs_judged(device) && listing.code && !listing.pair
}

// The same of a code and a mask that are looked up here.
#[tactic(auto, unfolding(requests::specs::Catalogue::mask_not_listed, requests::specs::Lookup::listing_of))]
pub fn mask_unlisted(device: Device, code: u8, mask: u8) -> bool
    ensures { result ≡ mask_not_listed device code mask }
{
    mask_missing(device, look_up(device, code, mask))
}

// Whether an allowed set has a counter that the device has not.
#[tactic(auto, unfolding(requests::specs::Checks::too_wide))]
pub fn too_wide(device: Device, allowed: CounterSet) -> bool
    ensures { result ≡ too_wide device allowed }
{
    all_counters(device).0 < allowed.0
}

// A request on a device, with what the device's catalogue lists of it.
#[derive(Clone, Copy)]
struct LookedUp {
    device: Device,
    request: Request,
    listing: Listing,
    ghost listed: { listing ≡ listing_for device request },
}

impl LookedUp {
    fn new(device: Device, request: Request) -> LookedUp
        ensures device { result.device ≡ device }
        ensures request { result.request ≡ request }
    {
        LookedUp {
            device,
            request,
            listing: listing_for(device, request),
        }
    }

    // 8: whether an event is not listed: the pair, or the code where that has its own masks.
    #[tactic(auto, unfolding(requests::specs::Checks::not_listed_lem, requests::specs::Lookup::listing_for, requests::specs::Lookup::listing_of))]
    fn not_listed(self) -> bool
        ensures { result ≡ not_listed_lem self.device self.request }
    {
        match self.request {
            Request::Event { .. } if pairs_judged(self.device) => !self.listing.pair,
            Request::Event { .. } => !self.listing.code,
            Request::Packet { .. } | Request::Offcore { .. } | Request::Latency { .. } => false,
        }
    }

    // 10: whether a mask, not 0, is not listed for its code, a bit is reserved or outside its field, or an allowed set is above all counters.
    #[tactic(auto, unfolding(requests::specs::Checks::out_of_range, requests::specs::Catalogue::mask_not_listed, requests::specs::Lookup::listing_for, requests::specs::Lookup::listing_of, requests::specs::Choice::either, requests::specs::Choice::both), using(requests::specs::Masks::type_mask, requests::specs::Masks::permitted_mask, requests::specs::Masks::match_mask, requests::specs::Masks::mask_mask))]
    fn out_of_range(self) -> bool
        ensures { result ≡ out_of_range self.device self.request }
    {
        match self.request {
            Request::Event { mask, allowed, .. } => {
                mask != 0 && mask_missing(self.device, self.listing)
                    || too_wide(self.device, allowed)
            }
            Request::Packet {
                match_word,
                mask_word,
                allowed,
            } => {
                !only_bits(MATCH, match_word)
                    || !only_bits(MASK, mask_word)
                    || too_wide(self.device, allowed)
            }
            Request::Offcore { word, allowed } => {
                !only_bits(PERMITTED, word) || too_wide(self.device, allowed)
            }
            Request::Latency {
                types,
                first,
                second,
            } => {
                !only_bits(TYPES, u64::from(types))
                    || too_wide(self.device, first)
                    || too_wide(self.device, second)
            }
        }
    }

    // 9: whether a mask, a request type or a response is missing.
    #[tactic(auto, unfolding(requests::specs::Checks::incomplete, requests::specs::Catalogue::mask_not_listed, requests::specs::Lookup::listing_for, requests::specs::Lookup::listing_of, requests::specs::Choice::either, requests::specs::Choice::both), using(requests::specs::Masks::type_mask, requests::specs::Masks::response_mask))]
    fn incomplete(self) -> bool
        ensures { result ≡ incomplete self.device self.request }
    {
        match self.request {
            Request::Event { mask, .. } => mask == 0 && mask_missing(self.device, self.listing),
            Request::Packet { .. } => false,
            Request::Offcore { word, .. } => {
                !any_bit(TYPES, word) || !any_bit(RESPONSES_OR_OUTSTANDING, word)
            }
            Request::Latency { types, .. } => !any_bit(TYPES, u64::from(types)),
        }
    }
}

// 11: whether an offcore word asks for what does not go together: OUTSTANDING, or ANY_RESPONSE with an answer.
#[tactic(auto, unfolding(requests::specs::Checks::conflicting, requests::specs::Choice::either, requests::specs::Choice::both), using(requests::specs::Masks::outstanding_mask, requests::specs::Masks::any_response_mask, requests::specs::Masks::answer_mask))]
fn conflicting(device: Device, request: Request) -> bool
    ensures { result ≡ conflicting device request }
{
    match request {
        Request::Offcore { word, .. } => {
            any_bit(OUTSTANDING, word) || any_bit(ANY_RESPONSE, word) && any_bit(ANSWERS, word)
        }
        Request::Event { .. } | Request::Packet { .. } | Request::Latency { .. } => false,
    }
}

// The first of the rows 7, 8, 10, 9, 11 that applies.
#[tactic(auto, unfolding(requests::specs::Checks::request_rows, requests::specs::Checks::request_refusal, requests::specs::Refusals::answer_for, requests::specs::Choice::first_holding))]
pub fn request_refusal(setup: Setup, request: Request) -> Answer
    ensures { result ≡ answer_for (request_refusal setup request) }
{
    let device = setup.device;
    if kind_not_on(device, request) {
        return Err(Refusal::KindNotOnDevice);
    }
    let looked_up = LookedUp::new(device, request);
    if looked_up.not_listed() {
        return Err(Refusal::NotListed);
    }
    if looked_up.out_of_range() {
        return Err(Refusal::OutOfRange);
    }
    if looked_up.incomplete() {
        return Err(Refusal::Incomplete);
    }
    if conflicting(device, request) {
        return Err(Refusal::Conflicting);
    }
    Ok(())
}
