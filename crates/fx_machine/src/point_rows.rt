//! The rows that measure and move points, with their operands and the reference points that they set.
//!
//! Each doc has the opcode, the mnemonic, its name in the Apple TrueType Reference Manual ("Instruction set"), what becomes of the
//! stack, whose top is written last, and what the row sets.

ghost use Rattle.std.specs.Prelude.{◌≡◌, ◌≤◌, Ok, length, drop, if◌then◌else◌};
ghost use Rattle.fx_stackops.specs.Store.{with_stack};
ghost use Rattle.fx_pointops.specs.Distances.{relative_of};
ghost use Rattle.fx_machine.specs.Actions.{Does};
ghost use Rattle.fx_machine.specs.Shapes.{HasSizes};
ghost use Rattle.fx_machine.specs.PointRows.{isect_row, alignpts_row, utp_row, mdap_row, iup_row, shp_row, shc_row, shz_row, shpix_row, ip_row, msirp_row};
ghost use Rattle.fx_machine.specs.PointRows.{alignrp_row, miap_row, gc_row, scfs_row, md_row, deltap_row, flippt_row, fliprg_row, mdrp_row, mirp_row, mirp_stray};

use crate::halt::Cause;
use crate::state::State;
use fx_fixed::{Axis, F26};
use fx_gstate::{DeltaForm, ZonePointer};
use fx_pointops::Relative;

impl State {
    /// Ends a loop row: takes its points off the stack, and sets loop to 1.
    fn end_loop(&mut self, count: u32)
        requires { count ≤ length self.old.store.stack }
        ensures value { self.new ≡ record self.old {
          store = with_stack (drop count self.old.store.stack) self.old.store;
          graphics = record self.old.graphics { loop_count = 1 };
        } }
        ensures sizes { HasSizes self.old self.new }
    {
        self.store.drop_top(count);
        self.graphics.end_loop();
    }

    /// Reference point 1 becomes reference point 0, and 2 becomes p; 0 becomes p too, if the row says so.
    fn set_references(&mut self, sets_rp0: bool, p: i32)
        ensures value { self.new ≡ record self.old {
          graphics = record self.old.graphics {
            rp0 = if sets_rp0 then p else self.old.graphics.rp0;
            rp1 = self.old.graphics.rp0;
            rp2 = p;
          };
        } }
        ensures sizes { HasSizes self.old self.new }
    {
        let rp0 = self.graphics.rp0;
        self.graphics.set_rp1(rp0);
        self.graphics.set_rp2(p);
        if sets_rp0 {
            self.graphics.set_rp0(p);
        }
    }

    /// 1 if MIRP's control value is a stray, which number -1 is not, else 0.
    fn mirp_stray(&self, number: i32) -> u64
        ensures { result ≡ mirp_stray self.now.store.cvt number }
    {
        if number == -1 {
            return 0;
        }
        self.store.control_stray(number)
    }

    /// 0F ISECT, InterSECTion of two lines: `p a0 a1 b0 b1 ->`. Puts p, of zp2, where the line a0 a1, of zp1, crosses the line
    /// b0 b1, of zp0.
    #[tactic(auto, unfolding(crate::specs::PointRows::isect_row))]
    pub(crate) fn isect(&mut self) -> Result<(), Cause>
        ensures { Does isect_row self.old self.new result }
    {
        let (a1, b0, b1) = self.store.three()?;
        let (p, a0) = self.store.two()?;
        self.zones.isect(&self.graphics, p, (a0, a1), (b0, b1));
        Ok(())
    }

    /// 27 ALIGNPTS, ALIGN Points: `p q ->`. Moves p, of zp1, and q, of zp0, halfway to each other.
    #[tactic(auto, unfolding(crate::specs::PointRows::alignpts_row))]
    pub(crate) fn alignpts(&mut self) -> Result<(), Cause>
        ensures { Does alignpts_row self.old self.new result }
    {
        let (a, b) = self.store.two()?;
        self.zones.alignpts(&self.graphics, a, b);
        Ok(())
    }

    /// 29 UTP, UnTouch Point: `p ->`. Untouches p, of zp0.
    #[tactic(auto, unfolding(crate::specs::PointRows::utp_row))]
    pub(crate) fn utp(&mut self) -> Result<(), Cause>
        ensures { Does utp_row self.old self.new result }
    {
        let operand = self.store.one()?;
        self.zones.utp(&self.graphics, operand);
        Ok(())
    }

    /// 2E-2F MDAP[a], Move Direct Absolute Point: `p ->`. Touches p, of zp0, with 1 at its rounded coordinate. Sets rp0, rp1.
    #[tactic(auto, unfolding(crate::specs::PointRows::mdap_row))]
    pub(crate) fn mdap(&mut self, rounds: bool) -> Result<(), Cause>
        ensures { Does (mdap_row rounds) self.old self.new result }
    {
        let p = self.store.one()?;
        self.zones.mdap(&self.graphics, rounds, p);
        self.graphics.set_rp0(p);
        self.graphics.set_rp1(p);
        Ok(())
    }

    /// 30-31 IUP[a], Interpolate Untouched Points: `->`. Moves the glyph's untouched points, with 0 in y, with 1 in x.
    #[tactic(auto, unfolding(crate::specs::PointRows::iup_row))]
    pub(crate) fn iup(&mut self, axis: Axis)
        ensures value { Ok self.new ≡ iup_row axis self.old }
        ensures sizes { HasSizes self.old self.new }
    {
        self.zones.iup(axis);
    }

    /// 32-33 SHP[a], SHift Point: `.. p ->`, a loop. Shifts each p, of zp2, as a reference point was moved: with 0 rp2, of zp1,
    /// with 1 rp1, of zp0. Sets loop to 1.
    #[tactic(auto, unfolding(crate::specs::PointRows::shp_row))]
    pub(crate) fn shp(&mut self, first: bool) -> Result<(), Cause>
        ensures { Does (shp_row first) self.old self.new result }
    {
        let count = self.graphics.loop_count;
        let points = self.store.top(count)?;
        self.zones.shp(&self.graphics, first, points);
        self.end_loop(count);
        Ok(())
    }

    /// 34-35 SHC[a], SHift Contour: `k ->`. Shifts contour k, of zp2, as that reference point was moved.
    #[tactic(auto, unfolding(crate::specs::PointRows::shc_row))]
    pub(crate) fn shc(&mut self, first: bool) -> Result<(), Cause>
        ensures { Does (shc_row first) self.old self.new result }
    {
        let operand = self.store.one()?;
        self.zones.shc(&self.graphics, first, operand);
        Ok(())
    }

    /// 36-37 SHZ[a], SHift Zone: `z ->`. Shifts zone z as that reference point was moved.
    #[tactic(auto, unfolding(crate::specs::PointRows::shz_row))]
    pub(crate) fn shz(&mut self, first: bool) -> Result<(), Cause>
        ensures { Does (shz_row first) self.old self.new result }
    {
        let zone = self.store.one()?;
        let zone = ZonePointer::of(zone)?;
        self.zones.shz(&self.graphics, first, zone);
        Ok(())
    }

    /// 38 SHPIX, SHift point by a PIXel amount: `.. p a ->`, a loop. Shifts each p, of zp2, by a. Sets loop to 1.
    #[tactic(auto, unfolding(crate::specs::PointRows::shpix_row))]
    pub(crate) fn shpix(&mut self) -> Result<(), Cause>
        ensures { Does shpix_row self.old self.new result }
    {
        let amount = self.store.one()?;
        let count = self.graphics.loop_count;
        let points = self.store.top(count)?;
        self.zones.shpix(&self.graphics, points, F26(amount));
        self.end_loop(count);
        Ok(())
    }

    /// 39 IP, Interpolate Point: `.. p ->`, a loop. Moves each p, of zp2, between rp1, of zp0, and rp2, of zp1. Sets loop to 1.
    #[tactic(auto, unfolding(crate::specs::PointRows::ip_row))]
    pub(crate) fn ip(&mut self) -> Result<(), Cause>
        ensures { Does ip_row self.old self.new result }
    {
        let count = self.graphics.loop_count;
        let points = self.store.top(count)?;
        self.zones.ip(&self.graphics, points);
        self.end_loop(count);
        Ok(())
    }

    /// 3A-3B MSIRP[a], Move Stack Indirect Relative Point: `p d ->`. Moves p, of zp1, to the distance d from rp0, of zp0. Sets
    /// rp1, rp2, with 1 rp0, too.
    #[tactic(auto, unfolding(crate::specs::PointRows::msirp_row))]
    pub(crate) fn msirp(&mut self, sets_rp0: bool) -> Result<(), Cause>
        ensures { Does (msirp_row sets_rp0) self.old self.new result }
    {
        let (p, distance) = self.store.two()?;
        self.zones.msirp(&self.graphics, p, F26(distance));
        self.set_references(sets_rp0, p);
        Ok(())
    }

    /// 3C ALIGNRP, ALIGN Relative Point: `.. p ->`, a loop. Moves each p, of zp1, to the distance 0 from rp0, of zp0. Sets loop
    /// to 1.
    #[tactic(auto, unfolding(crate::specs::PointRows::alignrp_row))]
    pub(crate) fn alignrp(&mut self) -> Result<(), Cause>
        ensures { Does alignrp_row self.old self.new result }
    {
        let count = self.graphics.loop_count;
        let points = self.store.top(count)?;
        self.zones.alignrp(&self.graphics, points);
        self.end_loop(count);
        Ok(())
    }

    /// 3E-3F MIAP[a], Move Indirect Absolute Point: `p n ->`. Moves p, of zp0, to control value n, with 1 rounded and within
    /// the cut-in. Sets rp0, rp1.
    #[tactic(auto, unfolding(crate::specs::PointRows::miap_row))]
    pub(crate) fn miap(&mut self, rounds: bool) -> Result<(), Cause>
        ensures { Does (miap_row rounds) self.old self.new result }
    {
        let (p, number) = self.store.two()?;
        let value = F26(self.store.control(number));
        let stray = self.store.control_stray(number);
        self.store.add_strays(stray);
        self.zones.miap(&self.graphics, rounds, p, value);
        self.graphics.set_rp0(p);
        self.graphics.set_rp1(p);
        Ok(())
    }

    /// 46-47 GC[a], Get Coordinate: `p -> v`. Pushes the coordinate of p, of zp2: with 0 the current one, with 1 the original
    /// one.
    #[tactic(auto, unfolding(crate::specs::PointRows::gc_row))]
    pub(crate) fn gc(&mut self, original: bool) -> Result<(), Cause>
        ensures { Does (gc_row original) self.old self.new result }
    {
        let p = self.store.one()?;
        let coordinate = self.zones.gc(&self.graphics, original, p);
        self.store.put(coordinate.0);
        Ok(())
    }

    /// 48 SCFS, Sets Coordinate From the Stack: `p v ->`. Moves p, of zp2, to the coordinate v.
    #[tactic(auto, unfolding(crate::specs::PointRows::scfs_row))]
    pub(crate) fn scfs(&mut self) -> Result<(), Cause>
        ensures { Does scfs_row self.old self.new result }
    {
        let (a, b) = self.store.two()?;
        self.zones.scfs(&self.graphics, a, F26(b));
        Ok(())
    }

    /// 49-4A MD[a], Measure Distance: `p q -> v`. Pushes the distance of p, of zp0, from q, of zp1: 49 the current one, 4A the
    /// original one.
    #[tactic(auto, unfolding(crate::specs::PointRows::md_row))]
    pub(crate) fn md(&mut self, original: bool) -> Result<(), Cause>
        ensures { Does (md_row original) self.old self.new result }
    {
        let (p, q) = self.store.two()?;
        let distance = self.zones.md(&self.graphics, original, p, q);
        self.store.put(distance.0);
        Ok(())
    }

    /// 5D DELTAP1, 71 DELTAP2, 72 DELTAP3, DELTA exception P: `.. argument p n ->`, n pairs. Moves each p, of zp0, whose
    /// argument acts at this size.
    #[tactic(auto, unfolding(crate::specs::PointRows::deltap_row))]
    pub(crate) fn deltap(&mut self, form: DeltaForm) -> Result<(), Cause>
        ensures { Does (deltap_row form) self.old self.new result }
    {
        let numbers = 2 * self.store.pairs()?;
        let pairs = self.store.top_there(numbers);
        self.zones
            .deltap(&self.graphics, form, self.scale.ppem, pairs);
        self.store.drop_top(numbers);
        Ok(())
    }

    /// 80 FLIPPT, FLIP PoinT: `.. p ->`, a loop. Each p, of zp0, goes off the curve, or onto it. Sets loop to 1.
    #[tactic(auto, unfolding(crate::specs::PointRows::flippt_row))]
    pub(crate) fn flippt(&mut self) -> Result<(), Cause>
        ensures { Does flippt_row self.old self.new result }
    {
        let count = self.graphics.loop_count;
        let points = self.store.top(count)?;
        self.zones.flippt(&self.graphics, points);
        self.end_loop(count);
        Ok(())
    }

    /// 81 FLIPRGON, 82 FLIPRGOFF, FLIP RanGe: `low high ->`. The points from low to high, of zp0, go onto the curve, or off it.
    #[tactic(auto, unfolding(crate::specs::PointRows::fliprg_row))]
    pub(crate) fn fliprg(&mut self, on: bool) -> Result<(), Cause>
        ensures { Does (fliprg_row on) self.old self.new result }
    {
        let (low, high) = self.store.two()?;
        self.zones.fliprg(&self.graphics, on, low, high);
        Ok(())
    }

    /// C0-DF MDRP[abcde], Move Direct Relative Point: `p ->`. Moves p, of zp1, to its original distance from rp0, of zp0. Sets
    /// rp1, rp2, with bit a rp0, too.
    #[tactic(auto, unfolding(crate::specs::PointRows::mdrp_row))]
    pub(crate) fn mdrp(&mut self, opcode: u8) -> Result<(), Cause>
        ensures { Does (mdrp_row (relative_of opcode)) self.old self.new result }
    {
        let how = Relative::of(opcode);
        let p = self.store.one()?;
        self.zones.mdrp(&self.graphics, how, p);
        self.set_references(how.sets_rp0, p);
        Ok(())
    }

    /// E0-FF MIRP[abcde], Move Indirect Relative Point: `p n ->`. Moves p, of zp1, to the distance of control value n from rp0,
    /// of zp0. Sets rp1, rp2, with bit a rp0, too.
    #[tactic(auto, unfolding(crate::specs::PointRows::mirp_row))]
    pub(crate) fn mirp(&mut self, opcode: u8) -> Result<(), Cause>
        ensures { Does (mirp_row (relative_of opcode)) self.old self.new result }
    {
        let how = Relative::of(opcode);
        let (p, number) = self.store.two()?;
        let value = F26(self.store.control(number));
        let stray = self.mirp_stray(number);
        self.store.add_strays(stray);
        self.zones.mirp(&self.graphics, how, p, value);
        self.set_references(how.sets_rp0, p);
        Ok(())
    }
}
