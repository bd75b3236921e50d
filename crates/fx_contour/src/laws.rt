//! Laws of the curve of a contour, over the definitions.
ghost use Rattle.fx_contour.specs.Contours.{ReachIsTested};
ghost use Rattle.fx_contour.specs.Curve.{CurvesAreClosed, CurveIsByMidpoints};
ghost use Rattle.fx_contour.specs.DropoutFrames.{MarginIsTested, ManyIsTested, SomePixelIsKept, BoxIsKept, CoveredIsKept};
ghost use Rattle.fx_contour.specs.DropoutFrames.{MetRowsAreKept, MetColumnsAreKept};
ghost use Rattle.fx_contour.specs.Frames.{LargeIsTested};
ghost use Rattle.fx_contour.specs.Moves.{ShiftMovesSpans, ShiftMovesBits, ReversalReversesContours, ReversalReversesSpans, ReversalKeepsBits};

/// The curve of a contour is a closed chain: each span begins where the one before it ends, the first where the last ends.
pub fn closed()
    ensures { CurvesAreClosed }
{}

/// The curve by triples of neighbours is the one that midpoints, then lines and arcs give (Apple TrueType Reference Manual,
/// "Digitizing Letterform Designs": two off-curve points have an implied on-curve point half way).
pub fn by_midpoints()
    ensures { CurveIsByMidpoints }
{}

/// The test of an outline's points decides whether they are within the limit, and the test of a frame's size whether it is.
pub fn tested()
    ensures near { ReachIsTested }
    ensures large { LargeIsTested }
{}

/// Moving every point by whole pixels moves the bits, if both outlines are within the limits.
pub fn shift()
    ensures spans { ShiftMovesSpans }
    ensures bits { ShiftMovesBits }
{}

/// Reversing every contour leaves every bit as it is: its pieces become the reversed pieces, in another order.
pub fn reversal()
    ensures contours { ReversalReversesContours }
    ensures spans { ReversalReversesSpans }
    ensures bits { ReversalKeepsBits }
{}

/// The frame with drop-out control has a pixel wherever there is a piece, all pixels of the frame without, all that are covered,
/// and one of each two neighbours between whose centres a piece passes. Its tests decide what they test.
pub fn dropout()
    ensures margin { MarginIsTested }
    ensures many { ManyIsTested }
    ensures some { SomePixelIsKept }
    ensures holds { BoxIsKept }
    ensures covered { CoveredIsKept }
    ensures rows { MetRowsAreKept }
    ensures columns { MetColumnsAreKept }
{}
