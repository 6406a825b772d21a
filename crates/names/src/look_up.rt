// The row of a name, as a part of the list that it stands in.
ghost use Rattle.std.specs.Prelude.{◌≡◌, true};
ghost use Rattle.std.specs.Option.{option_copied};
ghost use Rattle.names.specs.Lists.{NameLists, lists_of, row_texts, lists_formed};
ghost use Rattle.names.specs.LookUp.{top_row, row_named};

use crate::BothLists;
use crate::lists::{Rows, lists_formed};
use crate::rows::has_name;

// The topmost row of the name in one list, without its newline.
fn row_in<'a>(name: &[u8], list: &'a [u8]) -> Option<&'a [u8]>
    ensures { option_copied result ≡ top_row name.now (row_texts list.now) }
{
    Rows::of(list).find(|row| has_name(*row, name))
}

// The row of a name in lists that are well-formed.
pub fn row_named<'a>(name: &[u8], lists: &BothLists<'a>) -> Option<&'a [u8]>
    requires { lists_formed (lists_of lists.now) ≡ true }
    ensures { option_copied result ≡ row_named (lists_of lists.now) name.now }
{
    row_in(name, lists.site).or_else(|| row_in(name, lists.house))
}

// The row of a name, without its newline: the topmost of the site's list, or else of the house's. None where one of them is
// ill-formed.
pub fn look_up<'a>(name: &[u8], site: &'a [u8], house: &'a [u8]) -> Option<&'a [u8]>
    ensures { option_copied result ≡ row_named (record { site = site.now; house = house.now }) name.now }
{
    let lists = BothLists { site, house };
    if lists_formed(&lists) {
        return row_named(name, &lists);
    }
    None
}
