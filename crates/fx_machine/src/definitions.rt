//! The functions, and the definitions of opcodes.

ghost use Rattle.std.specs.Prelude.{◌≡◌, ◌≤◌, ◌<◌, ◌++◌, ◌&&◌, true, OnOk, None, Some, length, slice_index_or, slice_set, replicate, map, IfOk};
ghost use Rattle.fx_machine.specs.Definitions.{function_at};
ghost use Rattle.std.specs.List.{list_all};
ghost use Rattle.fx_machine.specs.Words.{function_word, function_in, is_near};

use crate::program::Program;
use crate::words::{are_near, functions_of, push_functions, used_of};
use std::alloc::{AllocError, Global};
use std::marker::Model;

/// A function: an address in a program.
#[derive(Clone, Copy, Debug, PartialEq, Eq, Default)]
pub struct Function {
    pub program: Program,
    pub address: usize,
}

/// Functions by their numbers. It holds those up to the last one, and has room for all: few fonts define opcodes, or as many
/// functions as there can be. So the others are neither written nor copied.
#[derive(Drop)]
pub struct FunctionTable {
    functions: Vec<Option<Function>>,
    count: usize,
}

impl Model for FunctionTable {
    ghost use Rattle.std.specs.Prelude.{◌≤◌, List, Option, length, vec_capacity};
    ghost use Rattle.fx_machine.specs.declared.definitions.Function.{Function as TheFunction};
    ghost use Rattle.fx_machine.specs.inner.Tables.{filled};

    ghost Value = { List (Option TheFunction) };

    ghost view = { λ t. filled t.count t.functions.items };

    ghost invariant = { λ t. (length t.functions.items ≤ t.count) × (t.count ≤ vec_capacity t.functions) };
}

impl FunctionTable {
    /// A table of this many numbers without a function.
    fn new(alloc: Global, count: usize) -> Result<FunctionTable, AllocError>
        ensures { IfOk result (λ t. t ≡ replicate count None) }
    {
        let functions = Vec::with_capacity(alloc, count)?;
        Ok(FunctionTable { functions, count })
    }

    /// Takes the functions of another of its size.
    #[tactic(auto, using(crate::proofs::Tables::filled_length))]
    fn copy_from(&mut self, other: &FunctionTable)
        requires { length self.old ≡ length other.now }
        ensures { self.new ≡ other.now }
    {
        self.functions.clear();
        // There is room for all.
        let _copied = self.functions.extend_from_slice(&other.functions);
    }

    /// The functions of words, one for each.
    fn of_words(alloc: Global, words: &[u32]) -> Result<FunctionTable, AllocError>
        ensures { IfOk result (λ t. t ≡ map function_in words.now) }
    {
        let count = words.len();
        let used = used_of(words);
        let functions = functions_of(alloc, count, &words[..used])?;
        Ok(FunctionTable { functions, count })
    }

    /// Whether each function has a word.
    #[tactic(auto, using(crate::proofs::Tables::filled_near))]
    fn is_near(&self) -> bool
        ensures { result ≡ list_all is_near self.now }
    {
        are_near(&self.functions)
    }

    /// Adds the words of the functions, one for each.
    fn push(&self, words: &mut Vec<u32>) -> Result<(), AllocError>
        requires { list_all is_near self.now ≡ true }
        ensures { OnOk result (words.new.items ≡ words.old.items ++ map function_word self.now) }
    {
        push_functions(words, &self.functions)?;
        let end = words.len() + (self.count - self.functions.len());
        words.resize(end, 0)?;
        Ok(())
    }

    /// How many there can be.
    #[tactic(auto, using(crate::proofs::Tables::filled_length))]
    fn len(&self) -> usize
        ensures { result ≡ length self.now }
    {
        self.count
    }

    /// The function of a number.
    #[tactic(auto, using(crate::proofs::Tables::filled_at))]
    fn get(&self, number: usize) -> Option<Function>
        ensures { result ≡ slice_index_or self.now number None }
    {
        match self.functions.get(number) {
            Some(function) => *function,
            None => None,
        }
    }

    /// Defines the function of a number, if there can be one.
    fn define(&mut self, number: usize, function: Function)
        ensures { self.new ≡ slice_set self.old number (Some function) }
    {
        if number < self.count {
            let reached = self.functions.len().max(number + 1);
            // There is room for all.
            let _reached = self.functions.resize(reached, None);
            self.functions[number] = Some(function);
        }
    }
}

/// The functions by their numbers, and the definitions of opcodes.
#[derive(Drop)]
pub struct Definitions {
    functions: FunctionTable,
    opcodes: FunctionTable,
}

impl Model for Definitions {
    ghost use Rattle.fx_machine.specs.Definitions.{Defined};

    ghost Value = { Defined };

    ghost view = { λ d. record { functions = d.functions; opcodes = d.opcodes } };
}

impl Definitions {
    /// No definition, of this number of functions and of each opcode.
    pub fn new(alloc: Global, functions: usize) -> Result<Definitions, AllocError>
        ensures { IfOk result (λ d. d ≡ record { functions = replicate functions None; opcodes = replicate 256 None }) }
    {
        let functions = FunctionTable::new(alloc, functions)?;
        let opcodes = FunctionTable::new(alloc, 256)?;
        Ok(Definitions { functions, opcodes })
    }

    /// Takes the definitions of another of its sizes.
    pub fn copy_from(&mut self, other: &Definitions)
        requires functions { length self.old.functions ≡ length other.now.functions }
        requires opcodes { length self.old.opcodes ≡ length other.now.opcodes }
        ensures { self.new ≡ other.now }
    {
        self.functions.copy_from(&other.functions);
        self.opcodes.copy_from(&other.opcodes);
    }

    /// The definitions of words.
    pub(crate) fn of_words(
        alloc: Global,
        functions: &[u32],
        opcodes: &[u32],
    ) -> Result<Definitions, AllocError>
        ensures { IfOk result (λ d. d ≡ record {
          functions = map function_in functions.now;
          opcodes = map function_in opcodes.now;
        }) }
    {
        let functions = FunctionTable::of_words(alloc, functions)?;
        let opcodes = FunctionTable::of_words(alloc, opcodes)?;
        Ok(Definitions { functions, opcodes })
    }

    /// Whether each definition has a word.
    pub(crate) fn are_near(&self) -> bool
        ensures { result ≡ (list_all is_near self.now.functions && list_all is_near self.now.opcodes) }
    {
        self.functions.is_near() && self.opcodes.is_near()
    }

    /// Adds the words of the definitions, one for each.
    pub(crate) fn push(&self, words: &mut Vec<u32>) -> Result<(), AllocError>
        requires functions { list_all is_near self.now.functions ≡ true }
        requires opcodes { list_all is_near self.now.opcodes ≡ true }
        ensures { OnOk result (words.new.items ≡ words.old.items ++ (map function_word self.now.functions
            ++ map function_word self.now.opcodes)) }
    {
        self.functions.push(words)?;
        self.opcodes.push(words)
    }

    /// How many opcodes there are.
    pub(crate) fn opcode_count(&self) -> usize
        ensures { result ≡ length self.now.opcodes }
    {
        self.opcodes.len()
    }

    /// How many functions there can be.
    pub fn count(&self) -> usize
        ensures { result ≡ length self.now.functions }
    {
        self.functions.len()
    }

    /// The function of a number.
    pub fn function(&self, number: i32) -> Option<Function>
        ensures { result ≡ function_at self.now.functions number }
    {
        if number < 0 {
            return None;
        }
        self.functions.get(number as usize)
    }

    /// The definition of an opcode.
    pub fn opcode(&self, opcode: u8) -> Option<Function>
        ensures { result ≡ slice_index_or self.now.opcodes opcode None }
    {
        self.opcodes.get(opcode as usize)
    }

    /// Defines a function of a number that there can be.
    pub fn define(&mut self, number: usize, function: Function)
        ensures { self.new ≡ record self.old { functions = slice_set self.old.functions number (Some function) } }
    {
        self.functions.define(number, function);
    }

    /// Defines an opcode.
    pub fn define_opcode(&mut self, opcode: usize, function: Function)
        ensures { self.new ≡ record self.old { opcodes = slice_set self.old.opcodes opcode (Some function) } }
    {
        self.opcodes.define(opcode, function);
    }
}
