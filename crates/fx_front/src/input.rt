//! The font by its name.
use std::fs::File;
use std::io;
use std::io::{Read, Stdin};

/// Where the font comes from.
#[derive(Drop)]
pub enum Input {
    /// From standard input.
    Standard(Stdin),
    /// From a file.
    File(File),
    /// From nowhere: there are no bytes.
    Nothing,
}

impl Read for Input {
    fn read(&mut self, buffer: &mut [u8]) -> io::Result<usize> {
        match self {
            Input::Standard(input) => input.read(buffer),
            Input::File(file) => file.read(buffer),
            Input::Nothing => Ok(0),
        }
    }
}
