// The filter registers while requests are placed. A register's user is a row: 0 for none, k + 1 for row k.
ghost use Rattle.std.specs.Prelude.{◌≡◌, ◌<◌, ◌≤◌};
ghost use Rattle.plans.specs.Search.{holds, holds_packet};
ghost use Rattle.search.specs.Filters.{word_at, asked_packet, rsp_of, filter_of};

use crate::rows::{OFFCORE, ROW_NUMBERS, request_at};
use checks::bits::latency_word;
use requests::Request;

// The word that the offcore or latency request in row `at` asks of an RSP register.
#[tactic(auto, unfolding(crate::specs::Filters::word_at))]
fn word_at(rows: &[u64; ROW_NUMBERS], rsp: u64, at: usize) -> u64
    requires { at < 8 }
    ensures { result ≡ word_at rows.now rsp at }
{
    let kind = rows[at * 4];
    let word = rows[at * 4 + 1];
    if kind <= OFFCORE {
        return word;
    }
    latency_word(rsp, (word % 65536) as u16)
}

// Whether the match and the mask that a request asks for, if any, are these.
#[tactic(auto, unfolding(requests::specs::Choice::both))]
fn same_packet(request: Request, x: u64, y: u64) -> bool
    ensures { result ≡ holds_packet (asked_packet request) x y }
{
    match request {
        Request::Packet {
            match_word,
            mask_word,
            ..
        } => match_word == x && mask_word == y,
        Request::Event { .. } | Request::Offcore { .. } | Request::Latency { .. } => true,
    }
}

// Whether an RSP register can hold the word: it is unused, or its user asked for the same.
pub fn holds_word(rows: &[u64; ROW_NUMBERS], rsp: u64, user: usize, word: u64) -> bool
    requires { user ≤ 8 }
    ensures { result ≡ holds (rsp_of rows.now rsp user) word }
{
    if user == 0 {
        return true;
    }
    word_at(rows, rsp, user - 1) == word
}

// Whether the match/mask register can hold the words.
pub fn holds_packet(rows: &[u64; ROW_NUMBERS], user: usize, x: u64, y: u64) -> bool
    requires { user ≤ 8 }
    ensures { result ≡ holds_packet (filter_of rows.now user) x y }
{
    if user == 0 {
        return true;
    }
    same_packet(request_at(rows, user - 1), x, y)
}
