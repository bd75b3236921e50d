//! Tables of numbers.

ghost use Rattle.std.specs.Prelude.{◌≡◌, ◌+◌, ◌<◌, ◌≤◌, ◌^◌, ◌++◌, pos, length, take, replicate, slice_index_or, slice_set, IfOk};
ghost use Rattle.fx_code.specs.Numbers.{numbers};
ghost use Rattle.fx_stackops.specs.Table.{AreNumbers, read_of, written_of, stray_of, rotated_of};

use fx_code::Instr;
use std::alloc::{AllocError, Global};
use std::marker::Model;

/// A table of numbers, seen as their list.
#[derive(Drop)]
pub struct Table {
    numbers: Vec<i32>,
}

impl Model for Table {
    ghost use Rattle.std.specs.Prelude.{List, ℤ};
    ghost use Rattle.fx_stackops.specs.Table.{AreNumbers};

    ghost Value = { List ℤ };

    ghost view = { λ t. t.numbers.items };

    ghost invariant = { λ t. AreNumbers t.numbers.items };
}

/// Writes the numbers that an instruction pushes to as many cells.
#[inline(always)]
fn put_each(cells: &mut [i32], instr: &Instr<'_>)
    requires size { length cells.old ≡ length (numbers instr.now.opcode instr.now.pushed.now) }
    requires fit { AreNumbers cells.old }
    ensures value { cells.new ≡ numbers instr.now.opcode instr.now.pushed.now }
    ensures fit { AreNumbers cells.new }
{
    // The first i numbers are written.
    'numbers: for i in 0..cells.len() {
        cells[i] = instr.number(i);
    }
}

impl Table {
    /// A table of zeros.
    pub fn zeros(alloc: Global, count: usize) -> Result<Table, AllocError>
        ensures { IfOk result (λ t. t ≡ replicate count (pos 0)) }
    {
        let numbers = vec![in alloc; 0; count]?;
        Ok(Table { numbers })
    }

    /// The table of these numbers.
    pub fn of(numbers: Vec<i32>) -> Table
        requires { AreNumbers numbers.items }
        ensures { result ≡ numbers.items }
    {
        Table { numbers }
    }

    /// How many numbers it has.
    pub fn len(&self) -> usize
        ensures { result ≡ length self.now }
    {
        self.numbers.len()
    }

    /// Its numbers.
    pub fn numbers(&self) -> &[i32]
        ensures { result.now ≡ self.now }
    {
        self.numbers.as_slice()
    }

    /// The number at an index inside.
    pub fn at(&self, i: usize) -> i32
        requires { i < length self.now }
        ensures { result ≡ slice_index_or self.now i (pos 0) }
    {
        self.numbers[i]
    }

    /// Writes the number at an index inside.
    pub fn put(&mut self, i: usize, x: i32)
        requires { i < length self.old }
        ensures value { self.new ≡ slice_set self.old i x }
        ensures fits { i + 1 < 2 ^ 64 }
    {
        self.numbers[i] = x;
    }

    /// Writes the numbers that an instruction pushes from an index on; there are cells for all.
    #[inline(always)]
    #[tactic(auto, using(crate::proofs::Stacks::written_next))]
    pub(crate) fn put_numbers(&mut self, from: usize, instr: &Instr<'_>)
        requires { from + length (numbers instr.now.opcode instr.now.pushed.now) ≤ length self.old }
        ensures front { take (from + length (numbers instr.now.opcode instr.now.pushed.now)) self.new
            ≡ take from self.old ++ numbers instr.now.opcode instr.now.pushed.now }
        ensures size { length self.new ≡ length self.old }
    {
        put_each(&mut self.numbers[from..from + instr.count()], instr);
    }

    /// Moves the number at an index to the end of the part from there to another, and each after it one down.
    pub fn rotate(&mut self, from: usize, to: usize)
        requires inside { from < to }
        requires end { to ≤ length self.old }
        ensures value { self.new ≡ rotated_of from to self.old }
        ensures size { length self.new ≡ length self.old }
    {
        self.numbers[from..to].rotate_left(1);
    }

    /// Takes the numbers of another table of its size.
    pub fn copy_from(&mut self, other: &Table)
        requires { length self.old ≡ length other.now }
        ensures { self.new ≡ other.now }
    {
        self.numbers.copy_from_slice(&other.numbers);
    }

    /// What a number of a program names, 0 outside.
    pub fn read(&self, number: i32) -> i32
        ensures { result ≡ read_of self.now number }
    {
        if self.stray(number) == 0 {
            self.at(number as usize)
        } else {
            0
        }
    }

    /// Writes what a number of a program names, if it is inside.
    pub fn write(&mut self, number: i32, x: i32)
        ensures { self.new ≡ written_of self.old number x }
    {
        if self.stray(number) == 0 {
            self.put(number as usize, x);
        }
    }

    /// 1 if a number of a program is outside, which is a stray, else 0.
    pub fn stray(&self, number: i32) -> u64
        ensures { result ≡ stray_of self.now number }
    {
        if number >= 0 && (number as usize) < self.len() {
            0
        } else {
            1
        }
    }
}
