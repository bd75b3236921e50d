//! What a run did.

use fx_request::Report;

/// What a run did.
#[derive(Clone, Copy)]
pub enum Done {
    /// It wrote a strike with these counts.
    Strike(Report),
    /// It wrote a picture.
    Picture,
    /// It wrote an outline.
    Outline,
    /// It wrote a listing.
    Listing,
    /// It wrote a trace; whether the font has the traced character.
    Trace(bool),
    /// It listed the faces of a file.
    Faces,
    /// It explained what is wrong with arguments.
    Explanation,
}
