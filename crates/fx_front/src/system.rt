//! The system's files.
use crate::disk::SystemDisk;
use crate::files::Files;
use crate::input::Input;
use crate::lines::say;
use crate::output::{Outlet, Output, output_of, why_closed};
use crate::target::{Target, target_of};
use fx_fixed::{FromReader, ToSink};
use std::alloc::AllocError;
use std::fs;
use std::fs::File;
use std::io::IsTerminal;

/// Why a font is not opened whose name no file has.
pub(crate) const NO_FILE: &str = "there is no such file";

/// The system's files and streams.
#[derive(Drop)]
pub struct System<'a> {
    pub rt: &'a HostRuntime,
}

impl<'a> Files for System<'a> {
    ghost use Rattle.std.specs.Prelude.{⊤};

    type Input = FromReader<Input>;

    type Place = Outlet<'a>;

    ghost IsTerminal = { λ _ _. ⊤ };

    ghost Opens = { λ _ _ _. ⊤ };

    ghost Unopened = { λ _ _ _. ⊤ };

    ghost IsEmpty = { λ _. ⊤ };

    ghost Places = { λ _ _ _. ⊤ };

    ghost Unplaced = { λ _ _ _. ⊤ };

    fn has_terminal(&self) -> bool {
        self.rt.stdin().is_terminal()
    }

    fn nothing(&self) -> FromReader<Input> {
        FromReader::new(Input::Nothing)
    }

    fn open(&self, name: Option<&str>) -> Result<FromReader<Input>, &'static str> {
        Ok(FromReader::new(input_of(self.rt, name)?))
    }

    fn standard(&self) -> Outlet<'a> {
        Outlet {
            rt: self.rt,
            output: Output::Standard,
        }
    }

    fn place(
        &self,
        name: Option<&str>,
        font: &str,
    ) -> Result<Result<Outlet<'a>, &'static str>, AllocError> {
        let disk = SystemDisk { rt: self.rt };
        match target_of(self.rt.alloc(), &disk, name, font)? {
            Ok(target) => Ok(self.outlet(name, target)),
            Err(why) => Ok(Err(why)),
        }
    }
}

impl<'a> System<'a> {
    /// The place of an output of this name, whose target this is; or why it can't be opened.
    fn outlet(&self, name: Option<&str>, target: Target) -> Result<Outlet<'a>, &'static str> {
        Ok(Outlet {
            rt: self.rt,
            output: output_of(self.rt, name, target)?,
        })
    }
}

/// The font of a name, by default standard input, or why it can't be read.
fn input_of(rt: &HostRuntime, font: Option<&str>) -> Result<Input, &'static str> {
    let Some(name) = font else {
        return Ok(Input::Standard(rt.stdin()));
    };
    match fs::metadata(rt, name) {
        Err(_) => Err(NO_FILE),
        Ok(found) if found.is_dir() => Err("it is a folder"),
        Ok(_) => match File::open(rt, name) {
            Ok(file) => Ok(Input::File(file)),
            Err(fault) => Err(why_closed(&fault)),
        },
    }
}
