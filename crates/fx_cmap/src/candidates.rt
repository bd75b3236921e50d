//! The subtables that are looked for.

ghost use Rattle.std.specs.Prelude.{◌≡◌};
ghost use Rattle.fx_cmap.specs.Lookup.{number_of};

/// A format of subtables that is read.
#[derive(Clone, Copy)]
pub enum Format {
    /// "Segment mapping to delta values".
    Four,
    /// "Segmented coverage".
    Twelve,
}

impl Format {
    /// The number that a subtable of this format begins with.
    pub fn number(self) -> u16
        ensures { result ≡ number_of self }
    {
        match self {
            Format::Four => 4,
            Format::Twelve => 12,
        }
    }
}

/// What is looked for: encoding records of a platform, with an encoding from `low` to `high` and a subtable of a format.
#[derive(Clone, Copy)]
pub struct Candidate {
    /// The format of the subtable.
    pub format: Format,
    /// The record's `platformID`.
    pub platform: u16,
    /// The least `encodingID`.
    pub low: u16,
    /// The greatest `encodingID`.
    pub high: u16,
}

/// The candidates, in order of preference (OpenType, "cmap", "Encoding records and encodings").
#[rattlefmt::skip]
pub const CANDIDATES: [Candidate; 5] = [
    // Windows with all of Unicode, then Unicode.
    Candidate { format: Format::Twelve, platform: 3, low: 10, high: 10 },
    Candidate { format: Format::Twelve, platform: 0, low: 0, high: 6 },
    // Windows with Unicode, then Unicode, then Windows with symbols.
    Candidate { format: Format::Four, platform: 3, low: 1, high: 1 },
    Candidate { format: Format::Four, platform: 0, low: 0, high: 3 },
    Candidate { format: Format::Four, platform: 3, low: 0, high: 0 },
];
