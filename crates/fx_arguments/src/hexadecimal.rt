//! Bytes as hexadecimal text.
ghost use Rattle.std.specs.Prelude.{◌≡◌, ◌⊎◌, ◌==◌, ◌||◌, not, filter, IfOk, IfErr};
ghost use Rattle.fx_arguments.specs.Input.{bytes_of_hex, is_blank};

use fx_request::Refusal;
use hex::FromHexError;
use std::alloc::{AllocError, Global};

/// The bytes of a text of hexadecimal digits and blanks.
#[tactic(auto, unfolding(crate::specs::Input::bytes_of_hex))]
pub fn decode_hex(alloc: Global, text: &[u8]) -> Result<Vec<u8>, Refusal>
    ensures bytes { IfOk result (λ bytes. bytes_of_hex text.now ≡ Some bytes.items) }
    ensures refused { IfErr result (λ refusal. (refusal ≡ Refusal.OutOfMemory)
        ⊎ ((refusal ≡ Refusal.BadHex) × (bytes_of_hex text.now ≡ None))) }
{
    match hex::decode(alloc, digits(alloc, text)?) {
        Ok(bytes) => Ok(bytes),
        Err(fault) => Err(refusal_of(fault)),
    }
}

/// The refusal of a text that was not decoded.
fn refusal_of(fault: FromHexError) -> Refusal
    ensures memory { fault ≡ FromHexError.OutOfMemory → result ≡ Refusal.OutOfMemory }
    ensures cases { (result ≡ Refusal.OutOfMemory) ⊎ (result ≡ Refusal.BadHex) }
{
    match fault {
        FromHexError::OutOfMemory => Refusal::OutOfMemory,
        _ => Refusal::BadHex,
    }
}

/// The text without its blanks: spaces, tabs, CR and LF.
fn digits(alloc: Global, text: &[u8]) -> Result<Vec<u8>, AllocError>
    ensures { IfOk result (λ digits. digits.items ≡ filter (λ b. not (is_blank b)) text.now) }
{
    text.iter()
        .copied()
        .filter(|b| !(*b == b' ' || *b == b'\t' || *b == b'\r' || *b == b'\n'))
        .collect(alloc)
}
