//! The rows that read or change the graphics state and see no point, on the stack and the graphics state alone.
//!
//! Each doc has the opcode, the mnemonic, its name in the Apple TrueType Reference Manual ("Instruction set"), what becomes of the
//! stack, whose top is written last, and what the row sets.

ghost use Rattle.fx_stackops.specs.Store.{DoesToStore};
ghost use Rattle.fx_machine.specs.Actions.{DoesBoth};
ghost use Rattle.fx_machine.specs.GraphicsRows.{spvfs_row, sfvfs_row, gpv_row, gfv_row, srp0_row, srp1_row, srp2_row, szp0_row};
ghost use Rattle.fx_machine.specs.GraphicsRows.{szp1_row, szp2_row, szps_row, sloop_row, smd_row, scvtci_row, sswci_row, ssw_row};
ghost use Rattle.fx_machine.specs.GraphicsRows.{sdb_row, sds_row, wcvtf_row, sround_row, s45round_row, scanctrl_row, scantype_row};

use crate::halt::Cause;
use fx_fixed::{F26, Ppem};
use fx_gstate::GState;
use fx_scale::Scale;
use fx_stackops::{StackFault, Store};

/// 0A SPVFS, Set Projection Vector From Stack: `x y ->`. Sets the projection vector and its dual.
#[tactic(auto, unfolding(crate::specs::GraphicsRows::spvfs_row))]
pub fn spvfs(store: &mut Store, graphics: &mut GState) -> Result<(), Cause>
    ensures { DoesBoth spvfs_row store.old graphics.old store.new graphics.new result }
{
    let (x, y) = store.two()?;
    graphics.set_projection_from_stack(x, y);
    Ok(())
}

/// 0B SFVFS, Set Freedom Vector From Stack: `x y ->`. Sets the freedom vector.
#[tactic(auto, unfolding(crate::specs::GraphicsRows::sfvfs_row))]
pub fn sfvfs(store: &mut Store, graphics: &mut GState) -> Result<(), Cause>
    ensures { DoesBoth sfvfs_row store.old graphics.old store.new graphics.new result }
{
    let (x, y) = store.two()?;
    graphics.set_freedom_from_stack(x, y);
    Ok(())
}

/// 0C GPV, Get Projection Vector: `-> x y`.
#[tactic(auto, unfolding(crate::specs::GraphicsRows::gpv_row))]
pub fn gpv(store: &mut Store, graphics: &GState) -> Result<(), StackFault>
    ensures { DoesToStore (gpv_row graphics.now) store.old store.new result }
{
    let vector = graphics.projection;
    store.push(i32::from(vector.x().0))?;
    store.push(i32::from(vector.y().0))?;
    Ok(())
}

/// 0D GFV, Get Freedom Vector: `-> x y`.
#[tactic(auto, unfolding(crate::specs::GraphicsRows::gfv_row))]
pub fn gfv(store: &mut Store, graphics: &GState) -> Result<(), StackFault>
    ensures { DoesToStore (gfv_row graphics.now) store.old store.new result }
{
    let vector = graphics.freedom;
    store.push(i32::from(vector.x().0))?;
    store.push(i32::from(vector.y().0))?;
    Ok(())
}

/// 10 SRP0, Set Reference Point 0: `p ->`. Sets rp0.
#[tactic(auto, unfolding(crate::specs::GraphicsRows::srp0_row))]
pub fn srp0(store: &mut Store, graphics: &mut GState) -> Result<(), Cause>
    ensures { DoesBoth srp0_row store.old graphics.old store.new graphics.new result }
{
    let operand = store.one()?;
    graphics.set_rp0(operand);
    Ok(())
}

/// 11 SRP1, Set Reference Point 1: `p ->`. Sets rp1.
#[tactic(auto, unfolding(crate::specs::GraphicsRows::srp1_row))]
pub fn srp1(store: &mut Store, graphics: &mut GState) -> Result<(), Cause>
    ensures { DoesBoth srp1_row store.old graphics.old store.new graphics.new result }
{
    let operand = store.one()?;
    graphics.set_rp1(operand);
    Ok(())
}

/// 12 SRP2, Set Reference Point 2: `p ->`. Sets rp2.
#[tactic(auto, unfolding(crate::specs::GraphicsRows::srp2_row))]
pub fn srp2(store: &mut Store, graphics: &mut GState) -> Result<(), Cause>
    ensures { DoesBoth srp2_row store.old graphics.old store.new graphics.new result }
{
    let operand = store.one()?;
    graphics.set_rp2(operand);
    Ok(())
}

/// 13 SZP0, Set Zone Pointer 0: `z ->`. Sets zp0: 0 is the twilight zone, 1 the glyph's.
#[tactic(auto, unfolding(crate::specs::GraphicsRows::szp0_row))]
pub fn szp0(store: &mut Store, graphics: &mut GState) -> Result<(), Cause>
    ensures { DoesBoth szp0_row store.old graphics.old store.new graphics.new result }
{
    let operand = store.one()?;
    graphics.set_zp0(operand)?;
    Ok(())
}

/// 14 SZP1, Set Zone Pointer 1: `z ->`. Sets zp1.
#[tactic(auto, unfolding(crate::specs::GraphicsRows::szp1_row))]
pub fn szp1(store: &mut Store, graphics: &mut GState) -> Result<(), Cause>
    ensures { DoesBoth szp1_row store.old graphics.old store.new graphics.new result }
{
    let operand = store.one()?;
    graphics.set_zp1(operand)?;
    Ok(())
}

/// 15 SZP2, Set Zone Pointer 2: `z ->`. Sets zp2.
#[tactic(auto, unfolding(crate::specs::GraphicsRows::szp2_row))]
pub fn szp2(store: &mut Store, graphics: &mut GState) -> Result<(), Cause>
    ensures { DoesBoth szp2_row store.old graphics.old store.new graphics.new result }
{
    let operand = store.one()?;
    graphics.set_zp2(operand)?;
    Ok(())
}

/// 16 SZPS, Set Zone PointerS: `z ->`. Sets zp0, zp1, zp2.
#[tactic(auto, unfolding(crate::specs::GraphicsRows::szps_row))]
pub fn szps(store: &mut Store, graphics: &mut GState) -> Result<(), Cause>
    ensures { DoesBoth szps_row store.old graphics.old store.new graphics.new result }
{
    let operand = store.one()?;
    graphics.set_zone_pointers(operand)?;
    Ok(())
}

/// 17 SLOOP, Set LOOP variable: `n ->`. Sets loop, the number of points that the next loop takes.
#[tactic(auto, unfolding(crate::specs::GraphicsRows::sloop_row))]
pub fn sloop(store: &mut Store, graphics: &mut GState) -> Result<(), Cause>
    ensures { DoesBoth sloop_row store.old graphics.old store.new graphics.new result }
{
    let operand = store.one()?;
    graphics.set_loop(operand)?;
    Ok(())
}

/// 1A SMD, Set Minimum Distance: `v ->`. Sets the minimum distance, in 26.6.
#[tactic(auto, unfolding(crate::specs::GraphicsRows::smd_row))]
pub fn smd(store: &mut Store, graphics: &mut GState) -> Result<(), Cause>
    ensures { DoesBoth smd_row store.old graphics.old store.new graphics.new result }
{
    let operand = store.one()?;
    graphics.set_minimum_distance(F26(operand));
    Ok(())
}

/// 1D SCVTCI, Set Control Value Table Cut-In: `v ->`. Sets the control value cut-in, in 26.6.
#[tactic(auto, unfolding(crate::specs::GraphicsRows::scvtci_row))]
pub fn scvtci(store: &mut Store, graphics: &mut GState) -> Result<(), Cause>
    ensures { DoesBoth scvtci_row store.old graphics.old store.new graphics.new result }
{
    let operand = store.one()?;
    graphics.set_cut_in(F26(operand));
    Ok(())
}

/// 1E SSWCI, Set Single Width Cut-In: `v ->`. Sets the single width cut-in, in 26.6.
#[tactic(auto, unfolding(crate::specs::GraphicsRows::sswci_row))]
pub fn sswci(store: &mut Store, graphics: &mut GState) -> Result<(), Cause>
    ensures { DoesBoth sswci_row store.old graphics.old store.new graphics.new result }
{
    let operand = store.one()?;
    graphics.set_single_width_cut_in(F26(operand));
    Ok(())
}

/// 1F SSW, Set Single Width: `v ->`. Sets the single width, from FUnits.
#[tactic(auto, unfolding(crate::specs::GraphicsRows::ssw_row))]
pub fn ssw(store: &mut Store, graphics: &mut GState, scale: &Scale) -> Result<(), Cause>
    ensures { DoesBoth (ssw_row scale.now) store.old graphics.old store.new graphics.new result }
{
    let operand = store.one()?;
    graphics.set_single_width(scale.apply(operand));
    Ok(())
}

/// 5E SDB, Set Delta Base: `n ->`. Sets the delta base.
#[tactic(auto, unfolding(crate::specs::GraphicsRows::sdb_row))]
pub fn sdb(store: &mut Store, graphics: &mut GState) -> Result<(), Cause>
    ensures { DoesBoth sdb_row store.old graphics.old store.new graphics.new result }
{
    let operand = store.one()?;
    graphics.set_delta_base(operand);
    Ok(())
}

/// 5F SDS, Set Delta Shift: `n ->`. Sets the delta shift, 0 to 6.
#[tactic(auto, unfolding(crate::specs::GraphicsRows::sds_row))]
pub fn sds(store: &mut Store, graphics: &mut GState) -> Result<(), Cause>
    ensures { DoesBoth sds_row store.old graphics.old store.new graphics.new result }
{
    let operand = store.one()?;
    graphics.set_delta_shift(operand)?;
    Ok(())
}

/// 70 WCVTF, Write Control Value Table in Funits: `i v ->`. Control value i becomes v, scaled.
#[tactic(auto, unfolding(crate::specs::GraphicsRows::wcvtf_row))]
pub fn wcvtf(store: &mut Store, scale: &Scale) -> Result<(), StackFault>
    ensures { DoesToStore (wcvtf_row scale.now) store.old store.new result }
{
    let (number, funits) = store.two()?;
    store.set_control(number, scale.apply(funits).0);
    Ok(())
}

/// 76 SROUND, Super ROUND: `n ->`. Sets the round state, to a grid that n describes.
#[tactic(auto, unfolding(crate::specs::GraphicsRows::sround_row))]
pub fn sround(store: &mut Store, graphics: &mut GState) -> Result<(), Cause>
    ensures { DoesBoth sround_row store.old graphics.old store.new graphics.new result }
{
    let operand = store.one()?;
    graphics.set_super_round(operand);
    Ok(())
}

/// 77 S45ROUND, Super ROUND 45 degrees: `n ->`. Sets the round state, to such a grid turned by 45 degrees.
#[tactic(auto, unfolding(crate::specs::GraphicsRows::s45round_row))]
pub fn s45round(store: &mut Store, graphics: &mut GState) -> Result<(), Cause>
    ensures { DoesBoth s45round_row store.old graphics.old store.new graphics.new result }
{
    let operand = store.one()?;
    graphics.set_super_round_45(operand);
    Ok(())
}

/// 85 SCANCTRL, SCAN conversion ConTRoL: `n ->`. Sets whether drop-out control is on, by the size.
#[tactic(auto, unfolding(crate::specs::GraphicsRows::scanctrl_row))]
pub fn scanctrl(store: &mut Store, graphics: &mut GState, ppem: Ppem) -> Result<(), Cause>
    ensures { DoesBoth (scanctrl_row ppem) store.old graphics.old store.new graphics.new result }
{
    let operand = store.one()?;
    graphics.set_scan_control(operand, ppem);
    Ok(())
}

/// 8D SCANTYPE: `n ->`. Sets which drop-out control it is.
#[tactic(auto, unfolding(crate::specs::GraphicsRows::scantype_row))]
pub fn scantype(store: &mut Store, graphics: &mut GState) -> Result<(), Cause>
    ensures { DoesBoth scantype_row store.old graphics.old store.new graphics.new result }
{
    let operand = store.one()?;
    graphics.set_scan_type(operand);
    Ok(())
}
