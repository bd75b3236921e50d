//! The columns between which a piece lies.

ghost use Rattle.std.specs.Prelude.{◌^◌};
ghost use Rattle.fx_fixed.specs.Ranges.{IsWithin};

/// The columns of a piece's box: those from `first` on and before `end`.
#[derive(Clone, Copy)]
pub(crate) struct Across {
    pub first: i32,
    pub end: i32,
    ghost near_first: { IsWithin (2 ^ 23) first },
    ghost near_end: { IsWithin (2 ^ 23) end },
}
