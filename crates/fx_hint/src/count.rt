//! What the walk below a root has used up.

ghost use Rattle.std.specs.Prelude.{◌≡◌, ◌+◌, ◌≤◌, OnOk, Err};
ghost use Rattle.fx_hint.specs.declared.fault.HintFault.{HintFault as TheFault};
ghost use Rattle.fx_fixed.specs.Chain.{GivesUnless};
ghost use Rattle.fx_hint.specs.Faults.{Fails};
ghost use Rattle.fx_machine.specs.Usages.{usage_with};
ghost use Rattle.fx_outline.specs.Limits.{max_points};
ghost use Rattle.fx_hint.specs.Limits.{max_components};
ghost use Rattle.fx_hint.specs.Outlines.{one_component, more_points};

use crate::fault::HintFault;
use crate::limits::MAX_COMPONENTS;
use fx_machine::Usage;
use fx_outline::MAX_POINTS;

/// Component records and points so far, of a root and all components below it, and what their programs used up.
#[derive(Clone, Copy, Debug, PartialEq, Eq)]
pub struct Count {
    pub records: u32,
    pub points: u32,
    pub usage: Usage,
}

impl Count {
    /// Counts a component record: at most `MAX_COMPONENTS` below the root.
    #[tactic(auto, unfolding(crate::specs::Outlines::one_component))]
    pub fn one_component(&mut self, root: u16) -> Result<(), HintFault>
        ensures value { GivesUnless Fails (λ _. self.new) result (one_component root self.old) }
        ensures due { (e : TheFault) → result ≡ Err e → one_component root self.old ≡ Err e }
        ensures records { OnOk result ((self.new.records ≡ self.old.records + 1) × (self.new.records ≤ max_components)) }
        ensures points { self.new.points ≡ self.old.points }
    {
        if self.records >= MAX_COMPONENTS {
            return Err(HintFault::TooManyComponents(root));
        }
        self.records += 1;
        Ok(())
    }

    /// Counts points: at most `MAX_POINTS` in the outline of the root.
    #[tactic(auto, unfolding(crate::specs::Outlines::more_points))]
    pub fn more_points(&mut self, root: u16, points: usize) -> Result<(), HintFault>
        ensures value { GivesUnless Fails (λ _. self.new) result (more_points root points self.old) }
        ensures due { (e : TheFault) → result ≡ Err e → more_points root points self.old ≡ Err e }
        ensures records { self.new.records ≡ self.old.records }
        ensures points { OnOk result ((self.new.points ≡ self.old.points + points) × (self.new.points ≤ max_points)) }
    {
        if self.points > MAX_POINTS || points > (MAX_POINTS - self.points) as usize {
            return Err(HintFault::TooManyPoints(root));
        }
        self.points += points as u32;
        Ok(())
    }

    /// Counts what a program used up.
    pub fn more_usage(&mut self, usage: Usage)
        ensures { self.new ≡ record self.old { usage = usage_with self.old.usage usage } }
    {
        self.usage = self.usage.plus(usage);
    }
}
