// Numbers of a script: decimal up to 2^64 - 1, and hex of up to 16 upper-case digits.
ghost use Rattle.std.specs.Prelude.{◌<◌, IfSome};

// The value of a digit in a base of at most 16, letters in upper case.
fn digit_of(byte: u8) -> Option<u64>
    ensures { IfSome result (λ digit. digit < 16) }
{
    match byte {
        b'0'..=b'9' => Some(u64::from(byte - b'0')),
        b'A'..=b'F' => Some(u64::from(byte - b'A') + 10),
        _ => None,
    }
}

// A number in a base of at most 16, where it has a digit and is below 2^64.
fn number(word: &[u8], base: u64) -> Option<u64> {
    if word.is_empty() {
        return None;
    }
    let mut value: u64 = 0;
    for byte in word {
        let digit = digit_of(*byte).filter(|digit| *digit < base)?;
        value = value.checked_mul(base)?.checked_add(digit)?;
    }
    Some(value)
}

pub fn decimal(word: &[u8]) -> Option<u64> {
    number(word, 10)
}

pub fn hex(word: &[u8]) -> Option<u64> {
    if word.len() <= 16 {
        number(word, 16)
    } else {
        None
    }
}
