//! What a trace keeps of a state, so that it can tell what the next instruction changes.

ghost use Rattle.std.specs.Prelude.{◌≡◌, length, IfOk, IsTrue};
ghost use Rattle.fx_trace.specs.Snapshots.{snapshot_of, HasSizesOf, IsRoomFor};

use fx_gstate::GState;
use fx_machine::{InstructControl, State};
use fx_zone::ZonePoint;
use std::alloc::{AllocError, Global};
use std::marker::Model;

/// The parts of a state that lines compare.
#[derive(Drop)]
pub struct Snapshot {
    pub twilight: Vec<ZonePoint>,
    pub glyph: Vec<ZonePoint>,
    pub storage: Vec<i32>,
    pub cvt: Vec<i32>,
    pub graphics: GState,
    pub flags: InstructControl,
}

impl Model for Snapshot {
    ghost use Rattle.fx_trace.specs.Snapshots.{SnapshotView};

    ghost Value = { SnapshotView };

    ghost view = { λ s. record {
      twilight = s.twilight.items;
      glyph = s.glyph.items;
      storage = s.storage.items;
      cvt = s.cvt.items;
      graphics = s.graphics;
      flags = s.flags;
    } };
}

/// A list of numbers again.
fn copy_of_numbers(alloc: Global, numbers: &[i32]) -> Result<Vec<i32>, AllocError>
    ensures { IfOk result (λ copy. copy.items ≡ numbers.now) }
{
    let mut copy = Vec::new(alloc);
    copy.extend_from_slice(numbers)?;
    Ok(copy)
}

/// A list of points again.
fn copy_of_points(alloc: Global, points: &[ZonePoint]) -> Result<Vec<ZonePoint>, AllocError>
    ensures { IfOk result (λ copy. copy.items ≡ points.now) }
{
    let mut copy = Vec::new(alloc);
    copy.extend_from_slice(points)?;
    Ok(copy)
}

impl Snapshot {
    /// That of a state.
    pub fn of(alloc: Global, state: &State) -> Result<Snapshot, AllocError>
        ensures { IfOk result (λ s. s ≡ snapshot_of state.now) }
    {
        let twilight = copy_of_points(alloc, state.zones.twilight.points())?;
        let glyph = copy_of_points(alloc, state.zones.glyph.points())?;
        let storage = copy_of_numbers(alloc, state.store.storage().numbers())?;
        let cvt = copy_of_numbers(alloc, state.store.controls().numbers())?;
        Ok(Snapshot {
            twilight,
            glyph,
            storage,
            cvt,
            graphics: state.graphics,
            flags: state.flags,
        })
    }

    /// Whether a state has as many points, cells and control values.
    fn has_sizes_of(&self, state: &State) -> bool
        ensures { IsTrue result → HasSizesOf self.now (snapshot_of state.now) }
    {
        self.twilight.len() == state.zones.twilight.points().len()
            && self.glyph.len() == state.zones.glyph.points().len()
            && self.storage.len() == state.store.storage().numbers().len()
            && self.cvt.len() == state.store.controls().numbers().len()
    }

    /// What takes its place if a state has other sizes. No instruction changes them, so this takes no memory.
    pub fn room_for(&self, state: &State) -> Result<Option<Snapshot>, AllocError>
        ensures { IfOk result (λ room. IsRoomFor room self.now (snapshot_of state.now)) }
    {
        if self.has_sizes_of(state) {
            return Ok(None);
        }
        let next = Snapshot::of(*self.twilight.allocator(), state)?;
        Ok(Some(next))
    }

    /// Becomes that of a state, for which there is room.
    pub fn renew(&mut self, room: Option<Snapshot>, state: &State)
        requires { IsRoomFor room self.old (snapshot_of state.now) }
        ensures { self.new ≡ snapshot_of state.now }
    {
        match room {
            Some(next) => *self = next,
            None => self.take(state),
        }
    }

    /// Becomes that of a state with its sizes.
    fn take(&mut self, state: &State)
        requires { HasSizesOf self.old (snapshot_of state.now) }
        ensures { self.new ≡ snapshot_of state.now }
    {
        self.twilight.copy_from_slice(state.zones.twilight.points());
        self.glyph.copy_from_slice(state.zones.glyph.points());
        self.storage
            .copy_from_slice(state.store.storage().numbers());
        self.cvt.copy_from_slice(state.store.controls().numbers());
        self.graphics = state.graphics;
        self.flags = state.flags;
    }
}
