//! The lines that a front writes for people.
ghost use Rattle.std.specs.Prelude.{◌≡◌, IfOk};
ghost use Rattle.fx_fixed.specs.Changes.{change_of};
ghost use Rattle.fx_front.specs.Lines.{IsLine, SaysLine, Tells, TellsText, line_of, shown_pieces};

use crate::text::Text;
use fx_fixed::{Sink, put_all};
use std::alloc::{AllocError, Global};

/// Writes a text as a line, if there was memory for it. It writes nothing if the text is empty or the sink failed before, and
/// ignores a fault.
pub fn tell<E: Sink>(alloc: Global, err: &mut E, text: &Text)
    ensures line { SaysLine (change_of E.held E.fault_count err.old err.new) }
    ensures told { TellsText (change_of E.held E.fault_count err.old err.new) text.now }
{
    if let Some(bytes) = text.bytes()
        && !bytes.is_empty()
        && err.faults() == 0
        && let Ok(line) = line_of(alloc, bytes)
    {
        let _ = put_all(err, &line);
    }
}

/// Says pieces in a line.
pub(crate) fn say<E: Sink>(alloc: Global, err: &mut E, pieces: &[&str])
    ensures line { SaysLine (change_of E.held E.fault_count err.old err.new) }
    ensures told { Tells (change_of E.held E.fault_count err.old err.new) (shown_pieces pieces.now) }
{
    let text = Text::of(alloc, pieces);
    tell(alloc, err, &text);
}

/// The line of a text.
fn line_of(alloc: Global, text: &[u8]) -> Result<Vec<u8>, AllocError>
    ensures { IfOk result (λ line. line.items ≡ line_of text.now) }
{
    let mut line = Vec::from_slice(alloc, b"mkstrike: ")?;
    line.extend_from_slice(text)?;
    line.push(b'\n')?;
    Ok(line)
}
