//! What to do after a refusal.
ghost use Rattle.std.specs.Prelude.{◌≡◌};
ghost use Rattle.fx_request.specs.Advice.{advice_of, after_halt};

use crate::refusal::Refusal;
use fx_machine::Cause;

impl Refusal {
    /// What to do after this refusal.
    pub fn advice(self) -> &'static str
        ensures { result.now ≡ advice_of self }
    {
        match self {
            Refusal::NotTrueType => "give a TrueType font; CFF outlines (OTTO) are not read",
            Refusal::TableMissing(_) => "the font is damaged, or has no TrueType outlines",
            Refusal::TableShort(_) => "the file is truncated",
            Refusal::BadHead | Refusal::BadMaxp | Refusal::BadCharMap => "the font is damaged",
            Refusal::NoCharMap =>
                "the font needs a Unicode character map: add a cmap subtable of format 4 or 12",
            Refusal::BadLoca(_)
            | Refusal::GlyphShort(_)
            | Refusal::BadContours(_)
            | Refusal::ComponentDepth(_)
            | Refusal::TooManyComponents(_)
            | Refusal::TooManyPoints(_)
            | Refusal::BadPointMatch(_) => "leave out the characters that use this glyph",
            Refusal::BadGlyphNumber(_) => {
                "give a number below the number of glyphs; if you gave none, the font is damaged"
            }
            Refusal::NoFace => {
                "give a number below the number of faces; a file that is not a collection has only face 0"
            }
            Refusal::Halted(halt) => after_halt(halt.cause),
            Refusal::TooFar(_) | Refusal::GlyphTooLarge(_) => "use a smaller size",
            Refusal::TooMuchWork => "if you trust the font, leave --careful out",
            Refusal::BadSize => "give a size from 1 to 1024",
            Refusal::BadChars => {
                "give hexadecimal numbers and ranges joined by commas, such as 20-7e,a0"
            }
            Refusal::BadName =>
                "give a name of 1 to 255 printable ASCII characters, no space first or last",
            Refusal::BadProperty(_) =>
                "give another name, another text of printable ASCII characters, or fewer properties",
            Refusal::WriteFailed(_) =>
                "free disk space, or check the program that reads the output, and try again",
            Refusal::ReadFailed => "check the device or pipe that the input comes from",
            Refusal::BadHex => "give the font without --hex, or as the text that xxd -p prints",
            Refusal::InputTooLarge => "use a font file of at most 64 MiB",
            Refusal::OutOfMemory => "free memory, or ask for fewer characters or a smaller size",
        }
    }
}

/// What to do about a program that halted for this cause.
pub(crate) fn after_halt(cause: Cause) -> &'static str
    ensures { result.now ≡ after_halt cause }
{
    match cause {
        Cause::StackUnder => {
            "push enough numbers before this instruction: each program begins with an empty stack"
        }
        Cause::StackOver => "raise maxStackElements in maxp",
        Cause::BadOpcode => "remove the instruction, or define its opcode with an IDEF",
        Cause::CodeEnd => "complete the program: it is truncated, or an EIF or ENDF is missing",
        Cause::BadJump => "fix the jump's offset; a jump to the end of the program is allowed",
        Cause::NoFunction => "define the function in fpgm or prep, or fix its number",
        Cause::CallDepth => "end the recursion, or nest fewer calls",
        Cause::StepLimit => "look for an endless loop around this address",
        Cause::DivideByZero => "test the divisor first",
        Cause::BadArgument => "fix the number that was pushed for this instruction",
        Cause::NestedDefinition => "end the first definition with ENDF",
        Cause::StrayEnd => "remove the ENDF, or end the function with one",
    }
}
