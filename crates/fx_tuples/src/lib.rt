//! The tuples of a variable font's `gvar` and `cvar`: how far each counts at a place, the points that it names, its deltas.
//!
//! Nothing here takes memory: point numbers and deltas are read from the bytes one by one. The rules are those of the OpenType
//! specification, "OpenType Font Variations Common Table Formats".
#![tactic(auto)]

mod deltas;
mod fault;
mod headers;
mod laws;
mod numbers;
mod regions;
mod stores;
mod tuples;

pub use deltas::{Deltas, deltas_in, skip_deltas};
pub use fault::TupleFault;
pub use laws::{law_at_most_one, law_rests};
pub use numbers::{Numbers, skip_numbers};
pub use regions::{Tent, factor};
pub use stores::TupleStore;
pub use tuples::{PointNumbers, Tuple, TupleCursor, TupleSetting, next_tuple};
