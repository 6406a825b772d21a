// The filter words that requests ask for: where they are more than the registers hold there is no plan, whatever counters are free.
ghost use Rattle.std.specs.Prelude.{true, ◌≡◌, ◌≤◌};
ghost use Rattle.plans.specs.Search.{holds, holds_packet};
ghost use Rattle.search.specs.Rows.{rows_from};
ghost use Rattle.plans.specs.FilterWords.{none_asked, ask_word, ask_packet, asked_by, crowded};

use crate::rows::{EVENT, ROW_NUMBERS, request_at};
use checks::bits::latency_word;
use plans::Asked;
use requests::Request;

// Whether an RSP register can hold the word.
fn holds(register: Option<u64>, word: u64) -> bool
    ensures { result ≡ holds register word }
{
    register.is_none_or(|held| held == word)
}

// Whether the match/mask register can hold the words.
#[tactic(auto, unfolding(requests::specs::Choice::both))]
fn holds_both(filter: Option<(u64, u64)>, x: u64, y: u64) -> bool
    ensures { result ≡ holds_packet filter x y }
{
    filter.is_none_or(|(match_word, mask_word)| match_word == x && mask_word == y)
}

// Nothing is asked for.
#[tactic(auto, unfolding(plans::specs::FilterWords::none_asked))]
fn none_asked() -> Asked
    ensures { result ≡ none_asked }
{
    Asked {
        first: None,
        second: None,
        packet: None,
        crowded: false,
    }
}

// One word more, in the first of both registers that can hold it.
#[tactic(auto, unfolding(plans::specs::FilterWords::ask_word))]
fn ask_word(word: u64, asked: Asked) -> Asked
    ensures { result ≡ ask_word word asked }
{
    if holds(asked.first, word) {
        return Asked {
            first: Some(word),
            ..asked
        };
    }
    if holds(asked.second, word) {
        return Asked {
            second: Some(word),
            ..asked
        };
    }
    Asked {
        crowded: true,
        ..asked
    }
}

// One match and mask more.
#[tactic(auto, unfolding(plans::specs::FilterWords::ask_packet))]
fn ask_packet(x: u64, y: u64, asked: Asked) -> Asked
    ensures { result ≡ ask_packet x y asked }
{
    if holds_both(asked.packet, x, y) {
        return Asked {
            packet: Some((x, y)),
            ..asked
        };
    }
    Asked {
        crowded: true,
        ..asked
    }
}

// What one request more asks for.
#[tactic(auto, unfolding(plans::specs::FilterWords::asked_by))]
fn asked_by(request: Request, asked: Asked) -> Asked
    ensures { result ≡ asked_by request asked }
{
    match request {
        Request::Event { .. } => asked,
        Request::Packet {
            match_word,
            mask_word,
            ..
        } => ask_packet(match_word, mask_word, asked),
        Request::Offcore { word, .. } => ask_word(word, asked),
        Request::Latency { types, .. } => {
            let both = ask_word(latency_word(0, types), asked);
            ask_word(latency_word(1, types), both)
        }
    }
}

// Whether the requests in the first `count` rows ask for more words than the registers hold.
#[tactic(auto, unfolding(plans::specs::FilterWords::crowded, crate::specs::Rows::rows_from, plans::specs::FilterWords::asked_from))]
fn crowded(rows: &[u64; ROW_NUMBERS], count: usize) -> bool
    requires { count ≤ 8 }
    ensures { result ≡ crowded (rows_from rows.now 0 count) }
{
    let mut asked = none_asked();
    for i in 0..count {
        asked = asked_by(request_at(rows, i), asked);
    }
    asked.crowded
}

// The same, looked at only where the last request is no event: an event asks for no word.
pub fn crowded_by_last(rows: &[u64; ROW_NUMBERS], count: usize) -> bool
    requires { count ≤ 8 }
    ensures { result ≡ true → crowded (rows_from rows.now 0 count) ≡ true }
{
    count != 0 && rows[(count - 1) * 4] != EVENT && crowded(rows, count)
}
