//! What hinting adds to scaling.

ghost use Rattle.std.specs.Prelude.{◌≡◌, false, List, [], ◌∷◌, ◌++◌};
ghost use Rattle.fx_fixed.specs.Chain.{GivesUnless};
ghost use Rattle.fx_hint.specs.Faults.{Fails};
ghost use Rattle.fx_hint.specs.Hinting.{Hinting, KeepsShape, no_hinting};
ghost use Rattle.fx_hint.specs.Runs.{ProgramRun, HasRun};

use crate::component::ComponentOf;
use crate::fault::HintFault;
use crate::made::Made;
use fx_machine::Usage;

/// Whether phantom points and rounded offsets are rounded, and what runs the programs of glyphs. Each program starts from the
/// same state: nothing passes from one glyph to another.
pub trait Hinter {
    ghost use Rattle.fx_hint.specs.Hinting.{Hinting};
    ghost use Rattle.fx_hint.specs.Runs.{ProgramRun};

    // What stays as it is, whatever runs.
    ghost Known: { Type 0 };

    ghost known: { Self → Known };

    ghost hinting: { Self → Hinting };

    // What becomes of it by these programs in turn.
    ghost Leads: { Self → List ProgramRun → Self → Type 0 };

    /// Whether hinting is on.
    fn is_on(&self) -> bool
        ensures { result ≡ (hinting self.now).on };

    /// Runs the program of glyph `g`, which is a component or the root, on its points and phantom points: what it used up. One that
    /// is stopped by its watcher returns `OutOfMemory`.
    fn run(
        &mut self,
        component: Option<ComponentOf>,
        g: u16,
        code: &[u8],
        made: &mut Made,
    ) -> Result<Usage, HintFault>
        ensures known { known self.new ≡ known self.old }
        ensures kept { hinting self.new ≡ hinting self.old }
        ensures leads { HasRun Leads self.old self.new result
            (record { component = component; g = g; code = code.now; made = made.old } ∷ []) }
        ensures value { GivesUnless Fails (λ usage. (made.new, usage)) result ((hinting self.old).run g code.now made.old) };

    /// The law: no program changes the number of points or the contours.
    fn law_keeps_shape(&self)
        ensures { KeepsShape (hinting self.now) };

    // No program, and some programs after others.
    ghost leads_same: { (x : Self) → Leads x [] x };

    ghost leads_then: { (x y z : Self) (some more : List ProgramRun) → Leads x some y → Leads y more z → Leads x (some ++ more) z };
}

/// Hinting off: nothing is rounded, and no program runs.
#[derive(Drop)]
pub struct NoHinter;

impl Hinter for NoHinter {
    ghost use Rattle.fx_hint.specs.Hinting.{no_hinting};

    ghost Known = { Unit {0} };

    ghost known = { λ _. tt };

    ghost hinting = { λ _. no_hinting };

    ghost Leads = { λ _ _ _. Unit {0} };

    fn is_on(&self) -> bool {
        false
    }

    fn run(
        &mut self,
        _component: Option<ComponentOf>,
        _g: u16,
        _code: &[u8],
        _made: &mut Made,
    ) -> Result<Usage, HintFault> {
        Ok(Usage::none())
    }

    fn law_keeps_shape(&self) {}

    ghost leads_same = { λ _. tt };

    ghost leads_then = { λ _ _ _ _ _ _ _. tt };
}
