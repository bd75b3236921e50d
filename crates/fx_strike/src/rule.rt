//! Which pixels an outline sets.
ghost use Rattle.std.specs.Prelude.{◌≡◌};
ghost use Rattle.fx_strike.specs.Strike.{rule_for};

use fx_gstate::ScanType;
use fx_raster::{Closing, Rule};
use fx_request::Dropout;

/// Which pixels an outline sets, with drop-out control or without; the same for all, or as its font's programs asked, and the left
/// or the lower one of a gap if they asked for nothing.
#[inline(always)]
pub(crate) fn rule_for(choice: Dropout, wish: Option<ScanType>) -> Rule
    ensures { result ≡ rule_for choice wish }
{
    match choice {
        Dropout::Off => Rule::Centres,
        Dropout::Left => Rule::Bridged(Closing::Lower),
        Dropout::Near => Rule::Bridged(Closing::Nearer),
        Dropout::Font => match wish {
            None | Some(ScanType::Leftmost) => Rule::Bridged(Closing::Lower),
            Some(ScanType::Nearest) => Rule::Bridged(Closing::Nearer),
            Some(ScanType::Off) => Rule::Centres,
        },
    }
}
