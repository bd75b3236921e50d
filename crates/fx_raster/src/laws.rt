//! What the definitions of shapes imply.
ghost use Rattle.fx_raster.specs.Laws.{PictureExists, PictureIsOne, ShiftMovesPicture, ReversalKeepsPicture, NoGapInRow, NoGapInColumn};

/// A shape has a picture, and only one, however much memory there is: its pixels lie within the limits.
pub fn picture()
    ensures exists { PictureExists }
    ensures one { PictureIsOne }
{}

/// Without drop-out control, moving an outline by whole pixels moves its picture, and reversing its contours changes nothing.
pub fn moves()
    ensures shift { ShiftMovesPicture }
    ensures reversal { ReversalKeepsPicture }
{
    fx_contour::laws::shift();
    fx_contour::laws::reversal();
}

/// With drop-out control no gap stays open between two neighbours in a row or a column.
pub fn bridged()
    ensures rows { NoGapInRow }
    ensures columns { NoGapInColumn }
{
    fx_contour::laws::dropout();
}
