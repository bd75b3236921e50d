//! What the definition of drop-out control implies.
ghost use Rattle.fx_dropout.specs.Laws.{DropoutAdds, RowsHaveNoGap, ColumnsHaveNoGap};

/// Drop-out control only adds pixels, and only in the frame. No gap with a pixel in the frame stays open, in rows and in columns.
pub fn dropout()
    ensures adds { DropoutAdds }
    ensures rows { RowsHaveNoGap }
    ensures columns { ColumnsHaveNoGap }
{}
