// The number readers.
ghost use Rattle.std.specs.Prelude.{◌≡◌, ◌≤◌, length};
ghost use Rattle.grammar.specs.Numbers.{digit_of, number_from, decimal_of, hex_of, core_number_of, core_of};

use crate::words::same;

// The value of a digit 0 to 9 or A to F, and 16 for any other byte.
// Form: (a) its definition `digit_of` answers 16, which no base is above.
#[tactic(auto, unfolding(grammar::specs::Numbers::digit_of))]
fn digit(b: u8) -> u64
    ensures is { result ≡ digit_of b }
    ensures bounded { result ≤ 16 }
{
    match b {
        b'0'..=b'9' => (b - b'0') as u64,
        b'A'..=b'F' => (b - b'A' + 10) as u64,
        _ => 16,
    }
}

// The number that at most 16 digits spell.
fn digits(field: &[u8], base: u64) -> Option<u64>
    requires { (base ≤ 16) × (length field.now ≤ 16) }
    ensures { result ≡ number_from base 0 field.now }
{
    let mut value: u64 = 0;
    for b in field {
        let d = digit(*b);
        if base <= d {
            return None;
        }
        value = value * base + d;
    }
    Some(value)
}

// A decimal of 1 to 5 digits, with no leading zero.
#[tactic(auto, unfolding(grammar::specs::Numbers::decimal_of, requests::specs::Choice::both))]
pub fn decimal(field: &[u8]) -> Option<u64>
    ensures { result ≡ decimal_of field.now }
{
    let n = field.len();
    if n == 0 {
        return None;
    }
    if 5 < n {
        return None;
    }
    if 1 < n && field[0] == b'0' {
        return None;
    }
    digits(field, 10)
}

// A core as a number: 0 for `-`, and one more than a decimal.
#[tactic(auto, unfolding(grammar::specs::Numbers::core_number_of, grammar::specs::Text::bytes))]
pub fn core_number(field: &[u8]) -> Option<u64>
    ensures { result ≡ core_number_of field.now }
{
    if same(field, b"-") {
        return Some(0);
    }
    let core = decimal(field)?;
    Some(core + 1)
}

// The core that the number stands for.
#[tactic(auto, unfolding(grammar::specs::Numbers::core_of))]
pub fn core_of(number: u64) -> Option<u64>
    ensures { result ≡ core_of number }
{
    number.checked_sub(1)
}

// A hex number of exactly `width` digits, at most 16.
#[tactic(auto, unfolding(grammar::specs::Numbers::hex_of))]
pub fn hex(field: &[u8], width: usize) -> Option<u64>
    requires { width ≤ 16 }
    ensures { result ≡ hex_of width field.now }
{
    if field.len() == width {
        return digits(field, 16);
    }
    None
}
