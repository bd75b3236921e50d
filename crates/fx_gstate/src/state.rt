//! The graphics state.

use crate::deltas::{Delta, DeltaForm, DeltaShift};
use crate::fault::BadArgument;
use crate::moves::shift_along;
use crate::rounding::{RoundState, round_to_grid, super_grid, super_grid_45};
use crate::scan::{ScanType, scan_control_of, scan_type_of};
use crate::vectors::Vector;
use crate::zones::ZonePointer;
use fx_fixed::{Axis, F26, Place, Ppem};

/// The graphics state (Apple TrueType Reference Manual, "Graphics state").
#[derive(Clone, Copy, Debug, PartialEq, Eq)]
pub struct GState {
    /// Points move along it.
    pub freedom: Vector,
    /// Distances are measured along it.
    pub projection: Vector,
    /// Distances between original places are measured along it.
    pub dual: Vector,
    /// Reference points 0, 1 and 2: any numbers.
    pub rp0: i32,
    pub rp1: i32,
    pub rp2: i32,
    /// Zone pointers 0, 1 and 2.
    pub zp0: ZonePointer,
    pub zp1: ZonePointer,
    pub zp2: ZonePointer,
    /// How many points a loop instruction takes.
    pub loop_count: u32,
    /// How distances are rounded.
    pub round_state: RoundState,
    /// MIRP takes a control value with the sign of the distance.
    pub auto_flip: bool,
    /// The control value cut-in, in 26.6.
    pub cut_in: F26,
    /// The minimum distance, in 26.6.
    pub minimum_distance: F26,
    /// The single width value, in 26.6.
    pub single_width: F26,
    /// The single width cut-in, in 26.6.
    pub single_width_cut_in: F26,
    /// The size, in pixels per em, at which the sizes of the first deltas begin.
    pub delta_base: i32,
    /// How small a step of deltas is.
    pub delta_shift: DeltaShift,
    /// Whether drop-out control is on; none until SCANCTRL says so.
    pub scan_control: Option<bool>,
    /// Which drop-out control, if it is on.
    pub scan_type: ScanType,
}

impl GState {
    ghost use Rattle.std.specs.Prelude.{◌≡◌, None, Some, OnErr, IfSome, false, unwrap_or};
    ghost use Rattle.fx_fixed.specs.declared.places.Axis.{Axis as TheAxis};
    ghost use Rattle.fx_gstate.specs.Vectors.{axis_of, line_of, words_of, projection_of, shift_of, place_along, has_part};
    ghost use Rattle.fx_gstate.specs.Rounding.{Rounds, rounded_of, super_grid_of};
    ghost use Rattle.fx_gstate.specs.declared.rounding.RoundState.TheVariants.{Super};
    ghost use Rattle.fx_gstate.specs.Deltas.{delta_of};
    ghost use Rattle.fx_gstate.specs.States.{default_state, leaves};
    ghost use Rattle.fx_gstate.specs.Scan.{scan_control_of, scan_type_of, wish_of};
    ghost use Rattle.fx_gstate.specs.Setters.{with_zp0, with_zp1, with_zp2, with_zones, with_loop, with_delta_shift};

    /// The default state: all vectors the x axis, all zone pointers the glyph's, rounding to grid, auto flip on, cut-in 68, minimum
    /// distance 64, delta base 9 and shift 3, loop 1, nothing asked of drop-out control, scan type 0, and 0 elsewhere.
    pub fn new() -> GState
        ensures { result ≡ default_state }
    {
        let x_axis = Vector::of_axis(Axis::X);
        GState {
            freedom: x_axis,
            projection: x_axis,
            dual: x_axis,
            rp0: 0,
            rp1: 0,
            rp2: 0,
            zp0: ZonePointer::Glyph,
            zp1: ZonePointer::Glyph,
            zp2: ZonePointer::Glyph,
            loop_count: 1,
            round_state: RoundState::ToGrid,
            auto_flip: true,
            cut_in: F26(68),
            minimum_distance: F26(64),
            single_width: F26(0),
            single_width_cut_in: F26(0),
            delta_base: 9,
            delta_shift: DeltaShift::three(),
            scan_control: None,
            scan_type: ScanType::Leftmost,
        }
    }

    /// The projection of a difference of current places on the projection vector, in 26.6.
    pub fn project(&self, dx: F26, dy: F26) -> F26
        ensures { result ≡ projection_of self.now.projection (record { x = dx; y = dy }) }
    {
        self.project_place(Place { x: dx, y: dy })
    }

    /// The projection of a difference of current places on the projection vector.
    pub fn project_place(&self, d: Place) -> F26
        ensures { result ≡ projection_of self.now.projection d }
    {
        self.projection.project(d)
    }

    /// The projection of a difference of original places on the dual projection vector, in 26.6.
    pub fn dual_project(&self, dx: F26, dy: F26) -> F26
        ensures { result ≡ projection_of self.now.dual (record { x = dx; y = dy }) }
    {
        self.dual_project_place(Place { x: dx, y: dy })
    }

    /// The projection of a difference of original places on the dual projection vector.
    pub fn dual_project_place(&self, d: Place) -> F26
        ensures { result ≡ projection_of self.now.dual d }
    {
        self.dual.project(d)
    }

    /// The shift along the freedom vector that changes the projection by `d`, in 26.6.
    pub fn shift_along(&self, d: F26) -> (F26, F26)
        ensures x { result.0 ≡ (shift_of self.now.freedom self.now.projection d).x }
        ensures y { result.1 ≡ (shift_of self.now.freedom self.now.projection d).y }
    {
        let shift = self.shift_place(d);
        (shift.x, shift.y)
    }

    /// The shift along the freedom vector that changes the projection by `d`.
    pub fn shift_place(&self, d: F26) -> Place
        ensures { result ≡ shift_of self.now.freedom self.now.projection d }
    {
        shift_along(self.freedom, self.projection, d)
    }

    /// The axis along which both the freedom and the projection vector lie, if they lie along one.
    pub fn axis(&self) -> Option<Axis>
        ensures along { IfSome result (λ axis. (self.now.freedom ≡ axis_of axis) × (self.now.projection ≡ axis_of axis)) }
        ensures none { result ≡ None
            → (axis : TheAxis) → ¬ ((self.now.freedom ≡ axis_of axis) × (self.now.projection ≡ axis_of axis)) }
    {
        if self.freedom.is_along(Axis::X) && self.projection.is_along(Axis::X) {
            return Some(Axis::X);
        }
        if self.freedom.is_along(Axis::Y) && self.projection.is_along(Axis::Y) {
            return Some(Axis::Y);
        }
        None
    }

    /// The place at a distance from the origin along the freedom vector.
    pub fn freedom_place(&self, d: F26) -> Place
        ensures { result ≡ place_along self.now.freedom d }
    {
        self.freedom.place_along(d)
    }

    /// Whether a move along the freedom vector touches a point along an axis.
    pub fn touches(&self, axis: Axis) -> bool
        ensures { result ≡ has_part axis self.now.freedom }
    {
        self.freedom.has_part(axis)
    }

    /// A distance rounded, in 26.6. The usual state has its own path, without the table of states.
    #[inline(always)]
    pub fn round(&self, d: F26) -> F26
        ensures rounds { Rounds self.now.round_state d result }
        ensures value { result ≡ rounded_of self.now.round_state d }
    {
        match self.round_state {
            RoundState::ToGrid => round_to_grid(d),
            state => state.round(d),
        }
    }

    /// What an argument of a delta instruction says.
    pub fn delta(&self, form: DeltaForm, argument: i32) -> Delta
        ensures { result ≡ delta_of form self.now.delta_base self.now.delta_shift argument }
    {
        Delta::of(form, self.delta_base, self.delta_shift, argument)
    }

    /// SVTCA: the freedom, projection and dual projection vectors become an axis.
    pub fn set_vectors_to_axis(&mut self, axis: Axis)
        ensures { self.new ≡ record self.old { freedom = axis_of axis; projection = axis_of axis; dual = axis_of axis } }
    {
        let vector = Vector::of_axis(axis);
        self.freedom = vector;
        self.projection = vector;
        self.dual = vector;
    }

    /// SPVTCA: the projection vector and its dual become an axis.
    pub fn set_projection_to_axis(&mut self, axis: Axis)
        ensures { self.new ≡ record self.old { projection = axis_of axis; dual = axis_of axis } }
    {
        self.set_projection(Vector::of_axis(axis));
    }

    /// SFVTCA: the freedom vector becomes an axis.
    pub fn set_freedom_to_axis(&mut self, axis: Axis)
        ensures { self.new ≡ record self.old { freedom = axis_of axis } }
    {
        self.freedom = Vector::of_axis(axis);
    }

    /// SPVTL: the projection vector and its dual become that of a line, whose points' current places differ by `d`; turned by 90
    /// degrees counter-clockwise when that is asked for.
    pub fn set_projection_to_line(&mut self, d: Place, perpendicular: bool)
        ensures { self.new ≡ record self.old { projection = line_of d perpendicular; dual = line_of d perpendicular } }
    {
        self.set_projection(Vector::of_line(d, perpendicular));
    }

    /// SFVTL: the freedom vector becomes that of a line.
    pub fn set_freedom_to_line(&mut self, d: Place, perpendicular: bool)
        ensures { self.new ≡ record self.old { freedom = line_of d perpendicular } }
    {
        self.freedom = Vector::of_line(d, perpendicular);
    }

    /// SDPVTL: the dual projection vector becomes that of a line between original places, the projection vector that of the same
    /// line between current places.
    pub fn set_dual_to_line(&mut self, original: Place, current: Place, perpendicular: bool)
        ensures { self.new ≡ record self.old { projection = line_of current perpendicular; dual = line_of original perpendicular } }
    {
        self.dual = Vector::of_line(original, perpendicular);
        self.projection = Vector::of_line(current, perpendicular);
    }

    /// SPVFS: the projection vector and its dual become the unit vector of the low words of two stack numbers.
    pub fn set_projection_from_stack(&mut self, x: i32, y: i32)
        ensures { self.new ≡ record self.old { projection = words_of x y; dual = words_of x y } }
    {
        self.set_projection(Vector::of_words(x, y));
    }

    /// SFVFS: the freedom vector becomes the unit vector of the low words of two stack numbers.
    pub fn set_freedom_from_stack(&mut self, x: i32, y: i32)
        ensures { self.new ≡ record self.old { freedom = words_of x y } }
    {
        self.freedom = Vector::of_words(x, y);
    }

    /// SFVTPV: the freedom vector becomes the projection vector.
    pub fn set_freedom_to_projection(&mut self)
        ensures { self.new ≡ record self.old { freedom = self.old.projection } }
    {
        self.freedom = self.projection;
    }

    /// Whatever sets the projection vector by itself sets its dual too.
    fn set_projection(&mut self, vector: Vector)
        ensures { self.new ≡ record self.old { projection = vector; dual = vector } }
    {
        self.projection = vector;
        self.dual = vector;
    }

    /// SRP0: reference point 0 becomes any number.
    pub fn set_rp0(&mut self, point: i32)
        ensures { self.new ≡ record self.old { rp0 = point } }
    {
        self.rp0 = point;
    }

    /// SRP1: reference point 1 becomes any number.
    pub fn set_rp1(&mut self, point: i32)
        ensures { self.new ≡ record self.old { rp1 = point } }
    {
        self.rp1 = point;
    }

    /// SRP2: reference point 2 becomes any number.
    pub fn set_rp2(&mut self, point: i32)
        ensures { self.new ≡ record self.old { rp2 = point } }
    {
        self.rp2 = point;
    }

    /// SZP0: zone pointer 0 becomes zone 0 or 1; any other number is `BadArgument`, and nothing changes.
    pub fn set_zp0(&mut self, zone: i32) -> Result<(), BadArgument>
        ensures value { leaves result self.new ≡ with_zp0 zone self.old }
        ensures kept { OnErr result (self.new ≡ self.old) }
    {
        self.zp0 = ZonePointer::of(zone)?;
        Ok(())
    }

    /// SZP1: zone pointer 1 becomes zone 0 or 1; any other number is `BadArgument`, and nothing changes.
    pub fn set_zp1(&mut self, zone: i32) -> Result<(), BadArgument>
        ensures value { leaves result self.new ≡ with_zp1 zone self.old }
        ensures kept { OnErr result (self.new ≡ self.old) }
    {
        self.zp1 = ZonePointer::of(zone)?;
        Ok(())
    }

    /// SZP2: zone pointer 2 becomes zone 0 or 1; any other number is `BadArgument`, and nothing changes.
    pub fn set_zp2(&mut self, zone: i32) -> Result<(), BadArgument>
        ensures value { leaves result self.new ≡ with_zp2 zone self.old }
        ensures kept { OnErr result (self.new ≡ self.old) }
    {
        self.zp2 = ZonePointer::of(zone)?;
        Ok(())
    }

    /// SZPS: all zone pointers become zone 0 or 1; any other number is `BadArgument`, and nothing changes.
    pub fn set_zone_pointers(&mut self, zone: i32) -> Result<(), BadArgument>
        ensures value { leaves result self.new ≡ with_zones zone self.old }
        ensures kept { OnErr result (self.new ≡ self.old) }
    {
        let zone = ZonePointer::of(zone)?;
        self.zp0 = zone;
        self.zp1 = zone;
        self.zp2 = zone;
        Ok(())
    }

    /// SLOOP: how many points the next loop instruction takes; below 0 it is `BadArgument`, and nothing changes.
    pub fn set_loop(&mut self, count: i32) -> Result<(), BadArgument>
        ensures value { leaves result self.new ≡ with_loop count self.old }
        ensures kept { OnErr result (self.new ≡ self.old) }
    {
        if count < 0 {
            return Err(BadArgument);
        }
        self.loop_count = count.unsigned_abs();
        Ok(())
    }

    /// A loop instruction is done: the next takes one point.
    pub fn end_loop(&mut self)
        ensures { self.new ≡ record self.old { loop_count = 1 } }
    {
        self.loop_count = 1;
    }

    /// SCVTCI: the control value cut-in, in 26.6.
    pub fn set_cut_in(&mut self, value: F26)
        ensures { self.new ≡ record self.old { cut_in = value } }
    {
        self.cut_in = value;
    }

    /// SMD: the minimum distance, in 26.6.
    pub fn set_minimum_distance(&mut self, value: F26)
        ensures { self.new ≡ record self.old { minimum_distance = value } }
    {
        self.minimum_distance = value;
    }

    /// SSWCI: the single width cut-in, in 26.6.
    pub fn set_single_width_cut_in(&mut self, value: F26)
        ensures { self.new ≡ record self.old { single_width_cut_in = value } }
    {
        self.single_width_cut_in = value;
    }

    /// SSW: the single width value, in 26.6; the caller has scaled it from FUnits.
    pub fn set_single_width(&mut self, value: F26)
        ensures { self.new ≡ record self.old { single_width = value } }
    {
        self.single_width = value;
    }

    /// FLIPON and FLIPOFF.
    pub fn set_auto_flip(&mut self, on: bool)
        ensures { self.new ≡ record self.old { auto_flip = on } }
    {
        self.auto_flip = on;
    }

    /// SDB: the delta base, any number.
    pub fn set_delta_base(&mut self, base: i32)
        ensures { self.new ≡ record self.old { delta_base = base } }
    {
        self.delta_base = base;
    }

    /// SDS: the delta shift, 0 to 6; any other number is `BadArgument`, and nothing changes.
    pub fn set_delta_shift(&mut self, shift: i32) -> Result<(), BadArgument>
        ensures value { leaves result self.new ≡ with_delta_shift shift self.old }
        ensures kept { OnErr result (self.new ≡ self.old) }
    {
        self.delta_shift = DeltaShift::of(shift)?;
        Ok(())
    }

    /// RTG, RTHG, RTDG, RDTG, RUTG and ROFF, and any other state.
    pub fn set_round_state(&mut self, state: RoundState)
        ensures { self.new ≡ record self.old { round_state = state } }
    {
        self.round_state = state;
    }

    /// SROUND: rounding to the grid that the low byte of a stack number names.
    pub fn set_super_round(&mut self, n: i32)
        ensures { self.new ≡ record self.old { round_state = Super (super_grid_of 64 n) } }
    {
        self.round_state = RoundState::Super(super_grid(n));
    }

    /// S45ROUND: rounding to the grid turned by 45 degrees that the low byte of a stack number names.
    pub fn set_super_round_45(&mut self, n: i32)
        ensures { self.new ≡ record self.old { round_state = Super (super_grid_of 45 n) } }
    {
        self.round_state = RoundState::Super(super_grid_45(n));
    }

    /// SCANCTRL: whether drop-out control is on at a size.
    pub fn set_scan_control(&mut self, n: i32, ppem: Ppem)
        ensures { self.new ≡ record self.old {
          scan_control = Some (scan_control_of n ppem (unwrap_or self.old.scan_control false));
        } }
    {
        let before = self.scan_control.unwrap_or(false);
        self.scan_control = Some(scan_control_of(n, ppem, before));
    }

    /// SCANTYPE: which drop-out control; a number that is no type changes nothing.
    pub fn set_scan_type(&mut self, n: i32)
        ensures { self.new ≡ record self.old { scan_type = unwrap_or (scan_type_of n) self.old.scan_type } }
    {
        self.scan_type = scan_type_of(n).unwrap_or(self.scan_type);
    }

    /// The drop-out control that was asked for, if any was.
    pub fn wish(&self) -> Option<ScanType>
        ensures { result ≡ wish_of self.now }
    {
        match self.scan_control {
            None => None,
            Some(false) => Some(ScanType::Off),
            Some(true) => Some(self.scan_type),
        }
    }
}
