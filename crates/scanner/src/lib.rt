// The fields of a text, the numbers and letters that they are, and the line of each verb.
#![tactic(auto)]

pub mod fields;
pub mod letters;
mod numbers;
pub mod verbs;
pub mod words;

// How a field spells a number: a decimal, a hex number of so many digits, 1 to 16, or a core.
#[derive(Clone, Copy)]
pub enum Format {
    Decimal,
    Hex(usize),
    Core,
}
