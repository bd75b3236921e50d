//! What is told of characters that are refused, and who is told.

use crate::refusal::Refusal;

/// What is told of a refused character that did not stop the strike.
#[derive(Clone, Copy, Debug, PartialEq, Eq)]
pub struct Notice {
    /// The code point.
    pub code: u32,
    /// Why it was refused; if it was left out though hinting was off for it, why then.
    pub cause: Refusal,
    /// Whether it was drawn without hinting. If not, it was left out.
    pub unhinted: bool,
}

/// Who is told of the characters of a strike that were refused.
pub trait Listener {
    ghost use Rattle.fx_request.specs.declared.notice.Notice.{Notice};

    // What becomes of it when it hears a notice.
    ghost Hears: { Self → Notice → Self → Type 0 };

    /// Hears a notice.
    fn hear(&mut self, notice: Notice)
        ensures { Hears self.old notice self.new };
}

/// Hears nothing.
#[derive(Clone, Copy)]
pub struct Deaf;

impl Listener for Deaf {
    ghost Hears = { λ _ _ _. Unit {0} };

    #[inline(always)]
    fn hear(&mut self, _notice: Notice) {}
}
