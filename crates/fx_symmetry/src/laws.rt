//! Laws of the halves of arcs, of the three symmetries, and of drop-out control for pieces that are reversed or moved by whole
//! pixels. "Moved" alone is short for moved by a symmetry. A quarter turn, or half a turn, is two of them, one after the other.
ghost use Rattle.fx_symmetry.specs.Halving.{HalfIsExact, HalvesMeet, HalvesHaveThePlaces, HalvesAddUp, HalvesKeepCover};
ghost use Rattle.fx_symmetry.specs.Pieces.{AddsUp, MovesCover, MovesBits, MirrorMeets, MirrorMeetsUp, FlipMeets, FlipMeetsUp};
ghost use Rattle.fx_symmetry.specs.Outlines.{MovesSpans, MovesDrawn, MovesDropoutFrame};
ghost use Rattle.fx_symmetry.specs.Dropout.{MovesNearSet, ReversalKeepsSet, ShiftMovesSet};
ghost use Rattle.fx_symmetry.specs.Shapes.{MovesPicture, MovesNearPicture};

/// Cutting an arc at its middle changes nothing: the halves meet on the arc, a place is on the arc exactly when it is on a half,
/// and elsewhere the halves' crossings and regions add up to the arc's. So an arc of an outline can be replaced by its halves.
pub fn subdivision()
    ensures exact { HalfIsExact }
    ensures meet { HalvesMeet }
    ensures places { HalvesHaveThePlaces }
    ensures sums { HalvesAddUp }
    ensures cover { HalvesKeepCover }
{}

/// The moved pieces of closed contours cover the moved places, and set the moved pixels: mirrored, pixel i of a row becomes pixel
/// -1 - i. It needs closed contours, since a place passes a piece on the left where the mirrored place passes the mirrored piece
/// on the right. And if the coordinates are exchanged, the pieces above a place are counted in place of those right of it.
pub fn pieces()
    ensures pieces { AddsUp }
    ensures cover { MovesCover }
    ensures bits { MovesBits }
{}

/// A mirrored piece meets the mirrored segments between places that are not on it, in rows and up columns; so does a piece upside
/// down. With the coordinates exchanged rows are columns, which needs no law.
pub fn meeting()
    ensures mirror { MirrorMeets }
    ensures mirror_up { MirrorMeetsUp }
    ensures flip { FlipMeets }
    ensures flip_up { FlipMeetsUp }
{}

/// Moving every point of an outline moves its pieces and its bits, and the moved outline is within the limits too. It moves the
/// frame with drop-out control, unless that is one column, or row, of two between which the middle of the outline lies.
pub fn outlines()
    ensures spans { MovesSpans }
    ensures bits { MovesDrawn }
    ensures frame { MovesDropoutFrame }
{}

/// With drop-out control by the nearer pixel, the mirrored pieces of closed contours set the mirrored pixels if no gap of a row has
/// a tie, and those upside down the pixels upside down if no gap of a column has one. By either pixel, reversed pieces set the same
/// pixels, and pieces moved by whole pixels the pixels moved.
pub fn dropout()
    ensures nearer { MovesNearSet }
    ensures reversal { ReversalKeepsSet }
    ensures shift { ShiftMovesSet }
{}

/// Without drop-out control, the picture of a moved outline is the moved picture. So it is with drop-out control by the nearer
/// pixel, mirrored or upside down, if there is no tie and the outline has a middle column or row.
pub fn pictures()
    ensures centres { MovesPicture }
    ensures nearer { MovesNearPicture }
{}
