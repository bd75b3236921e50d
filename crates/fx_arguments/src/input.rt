//! Reading the input.
ghost use Rattle.std.specs.Prelude.{◌≡◌, ◌⊎◌, ◌==◌, ℕ, List, ◌∷◌, ◌+◌, ◌<◌, ◌≤◌, ◌^◌, length, take, position, IfOk, IfErr, IfSome, OnOk};
ghost use Rattle.std.specs.List.{position_or_len};
ghost use Rattle.std.specs.Io.KnownBytes.{Consumes, IsAtEnd};
ghost use Rattle.fx_arguments.specs.Limits.{max_line};
ghost use Rattle.fx_arguments.specs.Arguments.{texts};
ghost use Rattle.fx_arguments.specs.Input.{IsLineCause, arguments_of_line};

use crate::fault::Fault;
use crate::limits::MAX_LINE;
use fx_fixed::Source;
use fx_request::Refusal;
use std::alloc::{AllocError, Global};

/// The size of a buffer for a line of arguments with its end.
pub const LINE_BUFFER: usize = MAX_LINE + 1;

/// Reads until the buffer holds the complete first line. Returns how many bytes it holds then, and how many of them the line has.
pub fn read_line<R: Source>(reader: &mut R, buffer: &mut [u8]) -> Result<(usize, usize), Fault>
    requires faults { R.fault_count reader.old < 2 ^ 63 }
    requires buffer { length buffer.old ≡ max_line + 1 }
    ensures sizes { IfOk result (λ sizes. (sizes.1 ≤ sizes.0) × (sizes.0 ≤ max_line + 1) × (sizes.1 ≤ max_line)) }
    ensures read { IfOk result (λ sizes. Consumes (R.left reader.old) (R.left reader.new) (take sizes.0 buffer.new)) }
    ensures line { IfOk result (λ sizes. sizes.1 ≡ position_or_len (λ b. b == 10) (take sizes.0 buffer.new)) }
    ensures quiet { OnOk result (R.fault_count reader.new ≡ R.fault_count reader.old) }
    ensures whole { IfOk result (λ sizes. (sizes.1 < sizes.0) ⊎ IsAtEnd (R.left reader.new)) }
    ensures cut { IfErr result (λ fault. (got : List ℕ) × Consumes (R.left reader.old) (R.left reader.new) got
        × IsLineCause fault got (R.fault_count reader.old) (R.fault_count reader.new)) }
{
    let mut filled = 0;
    // The bytes before `filled` were read, and the line goes on.
    'reading: while filled < buffer.len() {
        match reader.take(&mut buffer[filled..]) {
            None => return Err(Fault::Early(Refusal::ReadFailed)),
            Some(0) => return Ok((filled, filled)),
            Some(n) => filled += n,
        }
        let end = line_len(&buffer[..filled]);
        if end < filled {
            return Ok((filled, end));
        }
    }
    Err(Fault::Usage)
}

/// The number of bytes before the first LF.
fn line_len(bytes: &[u8]) -> usize
    ensures value { result ≡ position_or_len (λ b. b == 10) bytes.now }
    ensures bound { result ≤ length bytes.now }
{
    line_end(bytes).unwrap_or(bytes.len())
}

/// The index of the first LF.
fn line_end(bytes: &[u8]) -> Option<usize>
    ensures value { result ≡ position (λ b. b == 10) bytes.now }
    ensures bound { IfSome result (λ at. at < length bytes.now) }
{
    bytes.iter().position(|b| *b == b'\n')
}

/// The words of a line.
fn words_of<'a>(alloc: Global, line: &'a str) -> Result<Vec<&'a str>, AllocError>
    ensures { IfOk result (λ words. texts words.items ≡ arguments_of_line line.entry.now) }
{
    line.split(' ')
        .filter(|word| !word.is_empty())
        .collect(alloc)
}

/// The arguments of a line, after the program's name.
pub fn arguments_of_line<'a>(
    alloc: Global,
    program: &'a str,
    line: &'a str,
) -> Result<Vec<&'a str>, AllocError>
    ensures { IfOk result (λ arguments.
        texts arguments.items ≡ program.entry.now ∷ arguments_of_line line.entry.now) }
{
    let mut arguments = words_of(alloc, line)?;
    arguments.insert(0, program)?;
    Ok(arguments)
}
