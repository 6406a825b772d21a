// What the requests placed so far leave, and how it changes with each of them.
ghost use Rattle.std.specs.Prelude.{true, ◌≡◌};
ghost use Rattle.requests.specs.Devices.{has};
ghost use Rattle.search.specs.Left.{without_counter};

use crate::counters::without;
use requests::CounterSet;

// The free counters, and the row that uses each filter register: 0 for none, k + 1 for row k.
// Form: (b) with an Option<usize> for each user a search takes 10 to 12 % more instructions, with an Option<u8> 3 to 10 % more.
#[derive(Clone, Copy)]
pub struct Left {
    pub free: CounterSet,
    pub rsp0: usize,
    pub rsp1: usize,
    pub packet: usize,
}

// The same without counter k, which is free.
pub fn without_counter(left: Left, k: u64) -> Left
    requires { has left.free k ≡ true }
    ensures { result ≡ without_counter left k }
{
    Left {
        free: without(left.free, k),
        ..left
    }
}
