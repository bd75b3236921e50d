//! What was read of an input before its text.
ghost use Rattle.std.specs.Prelude.{◌≡◌, ◌==◌, ℕ, List, [], true, ◌+◌, ◌<◌, ◌≤◌, ◌^◌, ◌++◌, length, take, vec_len, IfOk, IfErr, OnOk};
ghost use Rattle.std.specs.List.{position_or_len};
ghost use Rattle.std.specs.Io.KnownBytes.{Consumes, IsAtEnd};
ghost use Rattle.fx_arguments.specs.Limits.{max_input, max_line};
ghost use Rattle.fx_arguments.specs.Input.{IsReadCause};
ghost use Rattle.fx_arguments.specs.ReadAhead.{ahead_of, nothing_ahead};

use crate::limits::MAX_INPUT;
use fx_fixed::Source;
use fx_request::Refusal;
use std::alloc::{AllocError, Global};
use std::marker::Model;

/// What was read of an input before its text: a line of arguments, and bytes of the text that came with it.
#[derive(Drop)]
pub struct ReadAhead<'a> {
    /// The number of bytes of the line, with its end.
    line: usize,
    /// The bytes after the line.
    text: &'a [u8],
    /// Whether the input ended there.
    ended: bool,
}

impl<'a> Model for ReadAhead<'a> {
    ghost use Rattle.std.specs.Prelude.{◌+◌, ◌≤◌, length};
    ghost use Rattle.fx_arguments.specs.Limits.{max_line};
    ghost use Rattle.fx_arguments.specs.ReadAhead.{ReadAheadView};

    ghost Value = { ReadAheadView };

    ghost view = { λ a. record { line = a.line; text = a.text.now; ended = a.ended } };

    ghost invariant = { λ a. a.line + length a.text.now ≤ max_line + 1 };
}

impl<'a> ReadAhead<'a> {
    /// Nothing was read.
    pub fn none() -> ReadAhead<'a>
        ensures { result ≡ nothing_ahead }
    {
        ReadAhead {
            line: 0,
            text: &[],
            ended: false,
        }
    }

    /// These bytes were read, whose first line ends at the index `end`. If no line ends in them, they are all of the input.
    pub fn of(got: &'a [u8], end: usize) -> ReadAhead<'a>
        requires few { length got.now ≤ max_line + 1 }
        requires place { end ≡ position_or_len (λ b. b == 10) got.now }
        requires within { end ≤ length got.now }
        ensures { result ≡ ahead_of got.entry.now }
    {
        let text = if end < got.len() {
            &got[end + 1..]
        } else {
            &got[end..]
        };
        ReadAhead {
            line: got.len() - text.len(),
            text,
            ended: end == got.len(),
        }
    }

    /// Reads on to the end of the input, and returns its text: what follows the line.
    pub fn read_on<R: Source>(&self, alloc: Global, reader: &mut R) -> Result<Vec<u8>, Refusal>
        requires faults { R.fault_count reader.old < 2 ^ 63 }
        requires ended { self.now.ended ≡ true → IsAtEnd (R.left reader.old) }
        ensures whole { IfOk result (λ text. (more : List ℕ) × Consumes (R.left reader.old) (R.left reader.new) more
            × IsAtEnd (R.left reader.new) × (text.items ≡ self.now.text ++ more) × (self.now.ended ≡ true → more ≡ [])) }
        ensures quiet { OnOk result (R.fault_count reader.new ≡ R.fault_count reader.old) }
        ensures fits { IfOk result (λ text. self.now.line + length text.items ≤ max_input) }
        ensures cut { IfErr result (λ refusal. (more : List ℕ) × Consumes (R.left reader.old) (R.left reader.new) more
            × IsReadCause refusal (self.now.line + length (self.now.text ++ more))
            (R.fault_count reader.old) (R.fault_count reader.new)
            × (self.now.ended ≡ true → (more ≡ []) × IsAtEnd (R.left reader.new))) }
    {
        let mut text = Vec::from_slice(alloc, self.text)?;
        if self.ended {
            return Ok(text);
        }
        let mut filled = text.len();
        // The bytes of `text` before `filled` are all that was read.
        'reading: while filled <= MAX_INPUT - self.line {
            make_room(&mut text, filled)?;
            match reader.take(&mut text[filled..]) {
                None => return Err(Refusal::ReadFailed),
                Some(0) => {
                    text.truncate(filled);
                    return Ok(text);
                }
                Some(n) => filled += n,
            }
        }
        Err(Refusal::InputTooLarge)
    }
}

/// The number of bytes by which a full buffer grows.
const PART: usize = 65_536;

/// Grows a text that has no room after its first `filled` bytes.
fn make_room(text: &mut Vec<u8>, filled: usize) -> Result<(), AllocError>
    requires few { filled ≤ max_input }
    requires inside { filled ≤ vec_len text.old }
    ensures kept { take filled text.new.items ≡ take filled text.old.items }
    ensures inside { filled ≤ vec_len text.new }
    ensures room { OnOk result (filled < vec_len text.new) }
{
    if filled < text.len() {
        return Ok(());
    }
    text.resize(filled + PART, 0)
}
