//! Which pixels an outline sets.

use fx_dropout::Closing;

/// Which pixels an outline sets.
#[derive(Clone, Copy, Debug, PartialEq, Eq)]
pub enum Rule {
    /// Those whose centres it covers (Apple TrueType Reference Manual, scan conversion, rule 1).
    Centres,
    /// Those, and with drop-out control the ones that close gaps between neighbours.
    Bridged(Closing),
}
