//! What the definitions imply.

ghost use Rattle.std.specs.Prelude.{[], ◌∷◌};
ghost use Rattle.fx_cmap.specs.Preferences.{GivesWayTo, windows_whole, unicode_whole, windows_basic, unicode_basic, windows_symbols};

/// Of a font with several maps, one with all of Unicode is never passed over for one of the basic plane, one for Windows never for
/// another of its format, and symbols are taken only if there is nothing else. What stands first in the table has no part in it.
pub fn preferences()
    ensures windows_whole { GivesWayTo [] windows_whole }
    ensures unicode_whole { GivesWayTo (windows_whole ∷ []) unicode_whole }
    ensures windows_basic { GivesWayTo (windows_whole ∷ unicode_whole ∷ []) windows_basic }
    ensures unicode_basic { GivesWayTo (windows_whole ∷ unicode_whole ∷ windows_basic ∷ []) unicode_basic }
    ensures symbols { GivesWayTo (windows_whole ∷ unicode_whole ∷ windows_basic ∷ unicode_basic ∷ []) windows_symbols }
{}
