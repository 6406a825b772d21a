// Lines to what they ask for, their names looked up in the site's list and the house's.
#![tactic(auto)]

mod named_lines;
pub mod parse;
mod verbs;
