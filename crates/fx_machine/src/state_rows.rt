//! The rows that set vectors by points, and the row that sets the flags.
//!
//! Each doc has the opcode, the mnemonic, its name in the Apple TrueType Reference Manual ("Instruction set"), what becomes of the
//! stack, whose top is written last, and what the row sets.

ghost use Rattle.std.specs.Prelude.{◌≡◌};
ghost use Rattle.fx_machine.specs.Actions.{Does};
ghost use Rattle.fx_machine.specs.StateRows.{spvtl_row, sfvtl_row, sdpvtl_row, instctrl_row, chosen};

use crate::halt::Cause;
use crate::state::{InstructControl, State};

/// The flags after INSTCTRL.
fn chosen(value: i32, selector: i32, flags: InstructControl) -> InstructControl
    ensures { result ≡ chosen value selector flags }
{
    match selector {
        1 => InstructControl {
            no_programs: value != 0,
            ..flags
        },
        2 => InstructControl {
            default_state: value != 0,
            ..flags
        },
        _ => flags,
    }
}

impl State {
    /// 06-07 SPVTL[a], Set Projection Vector To Line: `p1 p2 ->`. The projection vector and its dual go along the line from p2,
    /// of zp2, to p1, of zp1; with 1 across it.
    #[tactic(auto, unfolding(crate::specs::StateRows::spvtl_row))]
    pub(crate) fn spvtl(&mut self, turned: bool) -> Result<(), Cause>
        ensures { Does (spvtl_row turned) self.old self.new result }
    {
        let (p1, p2) = self.store.two()?;
        let line = self.zones.line(&self.graphics, p1, p2);
        self.graphics.set_projection_to_line(line.cur, turned);
        Ok(())
    }

    /// 08-09 SFVTL[a], Set Freedom Vector To Line: `p1 p2 ->`. The freedom vector goes along the line from p2, of zp2, to p1,
    /// of zp1; with 1 across it.
    #[tactic(auto, unfolding(crate::specs::StateRows::sfvtl_row))]
    pub(crate) fn sfvtl(&mut self, turned: bool) -> Result<(), Cause>
        ensures { Does (sfvtl_row turned) self.old self.new result }
    {
        let (p1, p2) = self.store.two()?;
        let line = self.zones.line(&self.graphics, p1, p2);
        self.graphics.set_freedom_to_line(line.cur, turned);
        Ok(())
    }

    /// 86-87 SDPVTL[a], Set Dual Projection Vector To Line: `p1 p2 ->`. The projection vector goes along the line from p2, of
    /// zp2, to p1, of zp1, and its dual along the line of their original places; with 1 across them.
    #[tactic(auto, unfolding(crate::specs::StateRows::sdpvtl_row))]
    pub(crate) fn sdpvtl(&mut self, turned: bool) -> Result<(), Cause>
        ensures { Does (sdpvtl_row turned) self.old self.new result }
    {
        let (p1, p2) = self.store.two()?;
        let line = self.zones.line(&self.graphics, p1, p2);
        self.graphics.set_dual_to_line(line.org, line.cur, turned);
        Ok(())
    }

    /// 8E INSTCTRL, INSTRuction execution ConTRoL: `v s ->`. While `prep` runs, sets whether programs of glyphs run, or from
    /// which graphics state.
    #[tactic(auto, unfolding(crate::specs::StateRows::instctrl_row))]
    pub(crate) fn instctrl(&mut self) -> Result<(), Cause>
        ensures { Does instctrl_row self.old self.new result }
    {
        let (value, selector) = self.store.two()?;
        if self.preparing {
            self.flags = chosen(value, selector, self.flags);
        }
        Ok(())
    }
}
