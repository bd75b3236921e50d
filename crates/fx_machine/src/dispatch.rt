//! The instruction table. `row` has an arm for each opcode of 2x, for PUSHB of one to three bytes, and for the first and the last
//! opcode, so that a table needs neither subtraction nor test; `row_5x` and `row_4x_6x` have those of 5x, 42 to 4F and 60 to 67.
//! Programs execute these most. Each of the three does nothing before its match, so that the compiler makes one table of them: it
//! takes one jump. `other_row` finds all others by the high nibble, as the definition does.
//!
//! All of it is inlined into the loop of a run, so that no action goes through memory. Only `push`, ROUND, NROUND and the rows of
//! `opcodes_0x`, `opcodes_3x`, `opcodes_7x` and `opcodes_8x` are called. Small functions need no hint: the compiler drops all
//! hints, with no message, from `row` or `advance` if it would grow very large. The program then has a symbol of its name.

ghost use Rattle.std.specs.Prelude.{◌≡◌, ◌≢◌, ◌+◌, ◌/◌, ◌<◌, ◌≤◌, length};
ghost use Rattle.fx_code.specs.Chain.{opcode_at};
ghost use Rattle.fx_machine.specs.Actions.{Does, Leads};
ghost use Rattle.fx_machine.specs.Table.{relative_row, row_here, opcodes_0x, opcodes_1x, opcodes_3x, opcodes_6x, opcodes_7x, opcodes_8x};

use crate::action::Action;
use crate::flow::past_else;
use crate::graphics_rows::{
    gfv, gpv, s45round, scanctrl, scantype, scvtci, sdb, sds, sfvfs, sloop, smd, spvfs, sround,
    srp0, srp1, srp2, ssw, sswci, szp0, szp1, szp2, szps, wcvtf,
};
use crate::halt::Cause;
use crate::program::Program;
use crate::state::State;
use fx_code::opcode::*;
use fx_code::{Code, Targets};
use fx_fixed::Axis;
use fx_gstate::{DeltaForm, RoundState};

/// The address after that of an instruction without data. It is worked out where it is needed, so that it takes no register before.
fn after(bytes: &[u8], address: usize) -> usize
    requires { address < length bytes.now }
    ensures { result ≡ address + 1 }
{
    address + 1
}

impl State {
    /// MDRP and MIRP.
    #[tactic(auto, unfolding(crate::specs::Table::relative_row))]
    fn move_relative(&mut self, opcode: u8) -> Result<(), Cause>
        ensures { Does (relative_row opcode) self.old self.new result }
    {
        if opcode >= MIRP_FIRST {
            self.mirp(opcode)
        } else {
            self.mdrp(opcode)
        }
    }

    /// 00 to 0F: vectors, ISECT.
    #[tactic(auto, unfolding(crate::specs::Table::opcodes_0x))]
    fn opcodes_0x(&mut self, opcode: u8) -> Result<(), Cause>
        ensures { Does (opcodes_0x opcode) self.old self.new result }
    {
        match opcode {
            SVTCA_Y => Ok(self.graphics.set_vectors_to_axis(Axis::Y)),
            SVTCA_X => Ok(self.graphics.set_vectors_to_axis(Axis::X)),
            SPVTCA_Y => Ok(self.graphics.set_projection_to_axis(Axis::Y)),
            SPVTCA_X => Ok(self.graphics.set_projection_to_axis(Axis::X)),
            SFVTCA_Y => Ok(self.graphics.set_freedom_to_axis(Axis::Y)),
            SFVTCA_X => Ok(self.graphics.set_freedom_to_axis(Axis::X)),
            SPVTL_0 => self.spvtl(false),
            SPVTL_1 => self.spvtl(true),
            SFVTL_0 => self.sfvtl(false),
            SFVTL_1 => self.sfvtl(true),
            SPVFS => spvfs(&mut self.store, &mut self.graphics),
            SFVFS => sfvfs(&mut self.store, &mut self.graphics),
            GPV => Ok(gpv(&mut self.store, &self.graphics)?),
            GFV => Ok(gfv(&mut self.store, &self.graphics)?),
            SFVTPV => Ok(self.graphics.set_freedom_to_projection()),
            ISECT => self.isect(),
            _ => Err(Cause::BadOpcode),
        }
    }

    /// 10 to 1F: reference points, zone pointers, loop, rounding, distances.
    #[inline(always)]
    #[tactic(auto, unfolding(crate::specs::Table::opcodes_1x))]
    fn opcodes_1x(&mut self, opcode: u8) -> Result<(), Cause>
        ensures { Does (opcodes_1x opcode) self.old self.new result }
    {
        match opcode {
            SRP0 => srp0(&mut self.store, &mut self.graphics),
            SRP1 => srp1(&mut self.store, &mut self.graphics),
            SRP2 => srp2(&mut self.store, &mut self.graphics),
            SZP0 => szp0(&mut self.store, &mut self.graphics),
            SZP1 => szp1(&mut self.store, &mut self.graphics),
            SZP2 => szp2(&mut self.store, &mut self.graphics),
            SZPS => szps(&mut self.store, &mut self.graphics),
            SLOOP => sloop(&mut self.store, &mut self.graphics),
            RTG => Ok(self.graphics.set_round_state(RoundState::ToGrid)),
            RTHG => Ok(self.graphics.set_round_state(RoundState::ToHalfGrid)),
            SMD => smd(&mut self.store, &mut self.graphics),
            SCVTCI => scvtci(&mut self.store, &mut self.graphics),
            SSWCI => sswci(&mut self.store, &mut self.graphics),
            SSW => ssw(&mut self.store, &mut self.graphics, &self.scale),
            _ => Err(Cause::BadOpcode),
        }
    }

    /// 30 to 3F: points.
    #[tactic(auto, unfolding(crate::specs::Table::opcodes_3x))]
    fn opcodes_3x(&mut self, opcode: u8) -> Result<(), Cause>
        ensures { Does (opcodes_3x opcode) self.old self.new result }
    {
        match opcode {
            IUP_Y => Ok(self.iup(Axis::Y)),
            IUP_X => Ok(self.iup(Axis::X)),
            SHP_0 => self.shp(false),
            SHP_1 => self.shp(true),
            SHC_0 => self.shc(false),
            SHC_1 => self.shc(true),
            SHZ_0 => self.shz(false),
            SHZ_1 => self.shz(true),
            SHPIX => self.shpix(),
            IP => self.ip(),
            MSIRP_0 => self.msirp(false),
            MSIRP_1 => self.msirp(true),
            ALIGNRP => self.alignrp(),
            RTDG => Ok(self.graphics.set_round_state(RoundState::ToDoubleGrid)),
            MIAP_0 => self.miap(false),
            MIAP_1 => self.miap(true),
            _ => Err(Cause::BadOpcode),
        }
    }

    /// 68 to 6F: ROUND and NROUND.
    #[tactic(auto, unfolding(crate::specs::Table::opcodes_6x))]
    fn round_or_not(&mut self, opcode: u8) -> Result<(), Cause>
        requires first { 0x68 ≤ opcode }
        requires last { opcode ≤ 0x6F }
        ensures { Does (opcodes_6x opcode) self.old self.new result }
    {
        if opcode <= ROUND_3 {
            self.store.round(&self.graphics)?;
        } else {
            self.store.nround()?;
        }
        Ok(())
    }

    /// 70 to 7F: control values, deltas, rounding.
    #[tactic(auto, unfolding(crate::specs::Table::opcodes_7x))]
    fn opcodes_7x(&mut self, opcode: u8) -> Result<(), Cause>
        ensures { Does (opcodes_7x opcode) self.old self.new result }
    {
        match opcode {
            WCVTF => Ok(wcvtf(&mut self.store, &self.scale)?),
            DELTAP2 => self.deltap(DeltaForm::Second),
            DELTAP3 => self.deltap(DeltaForm::Third),
            DELTAC1 => Ok(
                self.store
                    .deltac(DeltaForm::First, &self.graphics, self.scale.ppem)?,
            ),
            DELTAC2 => Ok(
                self.store
                    .deltac(DeltaForm::Second, &self.graphics, self.scale.ppem)?,
            ),
            DELTAC3 => Ok(
                self.store
                    .deltac(DeltaForm::Third, &self.graphics, self.scale.ppem)?,
            ),
            SROUND => sround(&mut self.store, &mut self.graphics),
            S45ROUND => s45round(&mut self.store, &mut self.graphics),
            ROFF => Ok(self.graphics.set_round_state(RoundState::Off)),
            RUTG => Ok(self.graphics.set_round_state(RoundState::UpToGrid)),
            RDTG => Ok(self.graphics.set_round_state(RoundState::DownToGrid)),
            SANGW | AA => Ok(self.store.ignored()?),
            _ => Err(Cause::BadOpcode),
        }
    }

    /// 80 to 8F: flips, SDPVTL, what is asked of the rasterizer.
    #[tactic(auto, unfolding(crate::specs::Table::opcodes_8x))]
    fn opcodes_8x(&mut self, opcode: u8) -> Result<(), Cause>
        ensures { Does (opcodes_8x opcode) self.old self.new result }
    {
        match opcode {
            FLIPPT => self.flippt(),
            FLIPRGON => self.fliprg(true),
            FLIPRGOFF => self.fliprg(false),
            SCANCTRL => scanctrl(&mut self.store, &mut self.graphics, self.scale.ppem),
            SDPVTL_0 => self.sdpvtl(false),
            SDPVTL_1 => self.sdpvtl(true),
            GETINFO => Ok(self.store.getinfo()?),
            ROLL => Ok(self.store.roll()?),
            MAX => Ok(self.store.max()?),
            MIN => Ok(self.store.min()?),
            SCANTYPE => scantype(&mut self.store, &mut self.graphics),
            INSTCTRL => self.instctrl(),
            _ => Err(Cause::BadOpcode),
        }
    }

    /// The row of the opcode at an address of a program.
    ///
    /// It is one table, so it is one long function: the compiler makes one jump of it.
    #[inline(always)]
    #[tactic(auto, unfolding(crate::specs::Table::row_here, crate::specs::Table::row_of, crate::specs::Table::plain_of, crate::specs::Table::opcodes_0x, crate::specs::Table::opcodes_2x))]
    pub fn row(
        &mut self,
        bytes: &[u8],
        targets: &mut Targets<'_>,
        opcode: u8,
        program: Program,
        address: usize,
    ) -> Result<Action, Cause>
        requires inside { address < length bytes.now }
        requires opcode { opcode ≡ opcode_at bytes.now address }
        requires targets { program ≡ Program.Font → targets.old ≡ bytes.now }
        ensures does { Leads (row_here opcode bytes.now program address) self.old self.new result }
        ensures targets { targets.new ≡ targets.old }
    {
        match opcode {
            PUSHB_1 => return self.pushb(bytes, PUSHB_1, address),
            0xB1 => return self.pushb(bytes, 0xB1, address),
            0xB2 => return self.pushb(bytes, 0xB2, address),
            SVTCA_Y => self.graphics.set_vectors_to_axis(Axis::Y),
            DUP => self.store.dup()?,
            POP => self.store.pop()?,
            CLEAR => self.store.clear(),
            SWAP => self.store.swap()?,
            DEPTH => self.store.depth()?,
            CINDEX => self.store.cindex()?,
            MINDEX => self.store.mindex()?,
            ALIGNPTS => self.alignpts()?,
            UNDEFINED_28 => return self.undefined(opcode, address + 1),
            UTP => self.utp()?,
            LOOPCALL => return self.loopcall(address + 1),
            CALL => return self.call(address + 1),
            FDEF => return self.fdef(&Code::new(bytes), program, address + 1),
            ENDF => return Ok(Action::Returned),
            MDAP_0 => self.mdap(false)?,
            MDAP_1 => self.mdap(true)?,
            MIRP_LAST => self.move_relative(MIRP_LAST)?,
            _ => return self.row_5x(bytes, targets, opcode, program, address),
        }
        Ok(Action::Went(after(bytes, address)))
    }

    /// The row of an opcode that is not of 2x.
    #[inline(always)]
    #[tactic(auto, unfolding(crate::specs::Table::row_here, crate::specs::Table::row_of, crate::specs::Table::plain_of, crate::specs::Table::opcodes_5x))]
    fn row_5x(
        &mut self,
        bytes: &[u8],
        targets: &mut Targets<'_>,
        opcode: u8,
        program: Program,
        address: usize,
    ) -> Result<Action, Cause>
        requires not_2x { opcode / 16 ≢ 2 }
        requires inside { address < length bytes.now }
        requires opcode { opcode ≡ opcode_at bytes.now address }
        requires targets { program ≡ Program.Font → targets.old ≡ bytes.now }
        ensures does { Leads (row_here opcode bytes.now program address) self.old self.new result }
        ensures targets { targets.new ≡ targets.old }
    {
        match opcode {
            LT => self.store.lt()?,
            LTEQ => self.store.lteq()?,
            GT => self.store.gt()?,
            GTEQ => self.store.gteq()?,
            EQ => self.store.eq()?,
            NEQ => self.store.neq()?,
            ODD => self.store.odd(&self.graphics)?,
            EVEN => self.store.even(&self.graphics)?,
            IF => return self.if_else(&Code::new(bytes), targets, program, address + 1),
            EIF => {}
            AND => self.store.and()?,
            OR => self.store.or()?,
            NOT => self.store.not()?,
            DELTAP1 => self.deltap(DeltaForm::First)?,
            SDB => sdb(&mut self.store, &mut self.graphics)?,
            SDS => sds(&mut self.store, &mut self.graphics)?,
            _ => return self.row_4x(bytes, targets, opcode, program, address),
        }
        Ok(Action::Went(after(bytes, address)))
    }

    /// The row of an opcode that is not of 2x or 5x.
    #[inline(always)]
    #[tactic(auto, unfolding(crate::specs::Table::row_here, crate::specs::Table::row_of, crate::specs::Table::plain_of, crate::specs::Table::opcodes_4x))]
    fn row_4x(
        &mut self,
        bytes: &[u8],
        targets: &mut Targets<'_>,
        opcode: u8,
        program: Program,
        address: usize,
    ) -> Result<Action, Cause>
        requires not_2x { opcode / 16 ≢ 2 }
        requires not_5x { opcode / 16 ≢ 5 }
        requires inside { address < length bytes.now }
        requires opcode { opcode ≡ opcode_at bytes.now address }
        requires targets { program ≡ Program.Font → targets.old ≡ bytes.now }
        ensures does { Leads (row_here opcode bytes.now program address) self.old self.new result }
        ensures targets { targets.new ≡ targets.old }
    {
        match opcode {
            WS => self.store.ws()?,
            RS => self.store.rs()?,
            WCVTP => self.store.wcvtp()?,
            RCVT => self.store.rcvt()?,
            GC_0 => self.gc(false)?,
            GC_1 => self.gc(true)?,
            SCFS => self.scfs()?,
            MD_0 => self.md(false)?,
            MD_1 => self.md(true)?,
            MPPEM => self.store.mppem(self.scale.ppem)?,
            MPS => self.store.mps(self.scale.ppem)?,
            FLIPON => self.graphics.set_auto_flip(true),
            FLIPOFF => self.graphics.set_auto_flip(false),
            DEBUG => self.store.ignored()?,
            _ => return self.row_6x(bytes, targets, opcode, program, address),
        }
        Ok(Action::Went(after(bytes, address)))
    }

    /// The row of an opcode that is not of 2x or 5x, and that `row_4x` has no arm for.
    #[inline(always)]
    #[tactic(auto, unfolding(crate::specs::Table::row_here, crate::specs::Table::row_of, crate::specs::Table::plain_of, crate::specs::Table::opcodes_6x))]
    fn row_6x(
        &mut self,
        bytes: &[u8],
        targets: &mut Targets<'_>,
        opcode: u8,
        program: Program,
        address: usize,
    ) -> Result<Action, Cause>
        requires not_2x { opcode / 16 ≢ 2 }
        requires low_4x { opcode / 16 ≡ 4 → opcode ≤ 0x41 }
        requires not_5x { opcode / 16 ≢ 5 }
        requires inside { address < length bytes.now }
        requires opcode { opcode ≡ opcode_at bytes.now address }
        requires targets { program ≡ Program.Font → targets.old ≡ bytes.now }
        ensures does { Leads (row_here opcode bytes.now program address) self.old self.new result }
        ensures targets { targets.new ≡ targets.old }
    {
        match opcode {
            ADD => self.store.add()?,
            SUB => self.store.sub()?,
            DIV => self.store.div()?,
            MUL => self.store.mul()?,
            ABS => self.store.abs()?,
            NEG => self.store.neg()?,
            FLOOR => self.store.floor()?,
            CEILING => self.store.ceiling()?,
            _ => return self.other_row(bytes, targets, opcode, program, address),
        }
        Ok(Action::Went(after(bytes, address)))
    }

    /// The row of an opcode that has no arm in `row`.
    #[inline(always)]
    #[tactic(auto, unfolding(crate::specs::Table::row_here, crate::specs::Table::row_of, crate::specs::Table::plain_of))]
    fn other_row(
        &mut self,
        bytes: &[u8],
        targets: &mut Targets<'_>,
        opcode: u8,
        program: Program,
        address: usize,
    ) -> Result<Action, Cause>
        requires not_2x { opcode / 16 ≢ 2 }
        requires low_4x { opcode / 16 ≡ 4 → opcode ≤ 0x41 }
        requires not_5x { opcode / 16 ≢ 5 }
        requires high_6x { opcode / 16 ≡ 6 → 0x68 ≤ opcode }
        requires inside { address < length bytes.now }
        requires opcode { opcode ≡ opcode_at bytes.now address }
        requires targets { program ≡ Program.Font → targets.old ≡ bytes.now }
        ensures does { Leads (row_here opcode bytes.now program address) self.old self.new result }
        ensures targets { targets.new ≡ targets.old }
    {
        match opcode / 16 {
            0x0 => self.opcodes_0x(opcode)?,
            0x1 => match opcode {
                ELSE => {
                    let after = past_else(&Code::new(bytes), targets, program, address + 1)?;
                    return Ok(Action::Went(after));
                }
                JMPR => return self.jmpr(bytes.len(), address),
                _ => self.opcodes_1x(opcode)?,
            },
            0x3 => self.opcodes_3x(opcode)?,
            0x6 => self.round_or_not(opcode)?,
            0x7 => match opcode {
                JROT => return self.jrot(bytes.len(), address, address + 1),
                JROF => return self.jrof(bytes.len(), address, address + 1),
                UNDEFINED_7B => return self.undefined(opcode, address + 1),
                _ => self.opcodes_7x(opcode)?,
            },
            0x8 => match opcode {
                UNDEFINED_83 | UNDEFINED_84 | UNDEFINED_8F => return self.undefined(
                    opcode,
                    address + 1,
                ),
                IDEF => return self.idef(&Code::new(bytes), program, address + 1),
                _ => self.opcodes_8x(opcode)?,
            },
            // NPUSHB, NPUSHW, PUSHB, PUSHW.
            0x4 | 0xB => return self.push(bytes, address),
            // MDRP, MIRP.
            0xC | 0xD | 0xE | 0xF => self.move_relative(opcode)?,
            // 90 to AF.
            _ => return self.undefined(opcode, address + 1),
        }
        Ok(Action::Went(after(bytes, address)))
    }
}
