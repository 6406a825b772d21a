// A list: rows, each closed by a newline.
ghost use Rattle.std.specs.Prelude.{◌≡◌, ◌+◌, drop};
ghost use Rattle.std.specs.Iterator.{YieldsFirstRef, item_count};
ghost use Rattle.names.specs.Lists.{lists_of, up_to_newline, row_texts, is_ended, well_formed, lists_formed};

use crate::BothLists;
use crate::rows::is_formed;

// Where the first row of a list ends: at its newline, or at the end of the list.
fn first_end(list: &[u8]) -> usize
    ensures { result ≡ up_to_newline list.now }
{
    list.iter().position(|b| *b == b'\n').unwrap_or(list.len())
}

// Where the row that begins at `at` ends: at its newline, or at the end of the list.
pub fn row_end(list: &[u8], at: usize) -> usize
    ensures { result ≡ at + up_to_newline (drop at list.now) }
{
    if at < list.len() {
        at + first_end(&list[at..])
    } else {
        at
    }
}

// The rows of a list that are left, from the top, each without its newline.
#[derive(Clone, Copy)]
pub(crate) struct Rows<'a> {
    pub rest: &'a [u8],
}

impl<'a> Rows<'a> {
    // All rows of a list.
    pub(crate) fn of(list: &'a [u8]) -> Self
        ensures { result.rest.now ≡ list.now }
    {
        Rows { rest: list }
    }
}

impl<'a> Iterator for Rows<'a> {
    type Item = &'a [u8];

    ghost next_gives = { YieldsFirstRef (λ s. row_texts s.rest.now) };

    ghost remaining = { item_count (λ s. row_texts s.rest.now) };

    fn next(&mut self) -> Option<&'a [u8]> {
        if self.rest.is_empty() {
            return None;
        }
        let list = self.rest;
        let end = first_end(list);
        self.rest = &list[list.len().min(end + 1)..];
        Some(&list[..end])
    }
}

// Whether a list is empty or ends with a newline.
fn is_ended(list: &[u8]) -> bool
    ensures { result ≡ is_ended list.now }
{
    match list.last() {
        Some(last) => *last == b'\n',
        None => true,
    }
}

// Whether a list is well-formed.
pub fn list_formed(list: &[u8]) -> bool
    ensures { result ≡ well_formed list.now }
{
    is_ended(list) && Rows::of(list).all(is_formed)
}

// Whether both lists are.
#[tactic(auto, unfolding(requests::specs::Choice::both, crate::specs::Lists::lists_formed))]
pub fn lists_formed(lists: &BothLists) -> bool
    ensures { result ≡ lists_formed (lists_of lists.now) }
{
    list_formed(lists.site) && list_formed(lists.house)
}
