//! What an instruction did.

use crate::definitions::Function;

/// What an instruction did, beside what it did to the state.
#[derive(Clone, Copy)]
pub enum Action {
    /// The program continues at an address.
    Went(usize),
    /// It calls a function several times, and then continues.
    Called {
        turns: u32,
        function: Function,
        next: usize,
    },
    /// The function ends.
    Returned,
}
