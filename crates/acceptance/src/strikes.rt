//! Requests for strikes of the fixture, and their counts.
use fx_machine::Usage;
use fx_request::{Dropout, Mode, OnRefused, Report, Request};
use fx_strike::Title;

/// Neither hinting nor drop-out control.
pub const UNHINTED: Mode = Mode {
    hinting: false,
    dropout: Dropout::Off,
    careful: false,
};

/// Hinting alone.
pub const HINTED: Mode = Mode {
    hinting: true,
    dropout: Dropout::Off,
    careful: false,
};

/// A name alone.
pub fn named(name: &str) -> Title<'_> {
    Title {
        name,
        properties: &[],
        x11: false,
    }
}

/// An unhinted request for a size and characters.
pub fn request(ppem: u16, chars: &[u32]) -> Request<'_> {
    Request {
        ppem,
        title: named("F1"),
        chars,
        mode: UNHINTED,
        on_refused: OnRefused::Stop,
    }
}

/// The counts of an unhinted strike.
pub fn counts(glyphs: u32, missing: u32) -> Report {
    Report {
        glyphs,
        missing,
        usage: Usage::none(),
    }
}
