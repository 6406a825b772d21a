// Names of events: two lists of rows, the site's and the house's, the row that a name finds, and the request that it stands for.
#![tactic(auto)]

use requests::Device;

pub mod event_names;
pub mod lists;
pub mod look_up;
pub mod named;
pub mod rows;

// What a row says of its name: an event's device, code and unit mask.
#[derive(Clone, Copy)]
pub struct Row {
    pub device: Device,
    pub code: u8,
    pub mask: u8,
}

// Both lists of names: the site's and the house's.
#[derive(Clone, Copy)]
pub struct BothLists<'a> {
    pub site: &'a [u8],
    pub house: &'a [u8],
}
