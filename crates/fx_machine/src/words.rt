//! Numbers, points and functions as words of 32 bits, and back.
ghost use Rattle.std.specs.Prelude.{◌≡◌, ℕ, ◌+◌, ◌*◌, ◌<◌, ◌≤◌, ◌++◌, [], ◌∷◌, true, map, length, slice_index, vec_capacity, IfOk, OnOk, IsTrue, FitsSigned};
ghost use Rattle.std.specs.Int.{w32};
ghost use Rattle.std.specs.List.{list_all, flat_map};
ghost use Rattle.fx_machine.specs.Words.{number_word, number_in, AreNumbers, marks_of, place_words, point_words, IsPoint, ArePoints};
ghost use Rattle.fx_machine.specs.Words.{point_in, points_in, program_number, program_in, function_word, function_in, is_near};

use crate::definitions::Function;
use crate::program::Program;
use fx_fixed::{F26, Place};
use fx_stackops::Table;
use fx_zone::{Zone, ZonePoint};
use std::alloc::{AllocError, Global};

/// Reads numbers from their words, one for each.
fn read_numbers(numbers: &mut [i32], words: &[u32])
    requires { length numbers.old ≡ length words.now }
    ensures { numbers.new ≡ map number_in words.now }
{
    // The numbers so far are those of their words.
    'numbers: for i in 0..words.len() {
        numbers[i] = words[i].cast_signed();
    }
}

/// The numbers of words, one for each.
fn numbers_of(alloc: Global, words: &[u32]) -> Result<Vec<i32>, AllocError>
    ensures { IfOk result (λ v. v.items ≡ map number_in words.now) }
{
    let mut numbers = vec![in alloc; 0; words.len()]?;
    read_numbers(&mut numbers, words);
    Ok(numbers)
}

/// The table of the numbers of words.
#[tactic(auto, using(crate::proofs::Blanks::all_numbers_fit))]
pub(crate) fn table_of(alloc: Global, words: &[u32]) -> Result<Table, AllocError>
    ensures { IfOk result (λ t. t ≡ map number_in words.now) }
{
    let numbers = numbers_of(alloc, words)?;
    Ok(Table::of(numbers))
}

/// Adds the word of a number.
fn push_number(words: &mut Vec<u32>, number: &i32) -> Result<(), AllocError>
    ensures words { OnOk result (words.new.items ≡ words.old.items ++ number_word number.now ∷ []) }
    ensures numbered { OnOk result (FitsSigned w32 number.now) }
{
    words.push(number.cast_unsigned())?;
    Ok(())
}

/// Adds the words of numbers, one for each.
pub(crate) fn push_numbers(words: &mut Vec<u32>, numbers: &[i32]) -> Result<(), AllocError>
    ensures words { OnOk result (words.new.items ≡ words.old.items ++ map number_word numbers.now) }
    ensures numbered { OnOk result (AreNumbers numbers.now) }
{
    // The words of the numbers so far were added.
    'numbers: for number in numbers {
        push_number(words, number)?;
    }
    Ok(())
}

/// The place of two words.
fn place_in(x: u32, y: u32) -> Place
    ensures { result ≡ record { x = number_in x; y = number_in y } }
{
    Place {
        x: F26(x.cast_signed()),
        y: F26(y.cast_signed()),
    }
}

/// The point of five words.
fn point_in(words: &[u32]) -> ZonePoint
    requires { 5 ≤ length words.now }
    ensures { result ≡ point_in words.now }
{
    let marks = words[4];
    ZonePoint {
        org: place_in(words[0], words[1]),
        cur: place_in(words[2], words[3]),
        on: marks % 2 == 1,
        touched_x: marks / 2 % 2 == 1,
        touched_y: marks / 4 % 2 == 1,
    }
}

/// The word of a point's marks.
fn marks_of(point: &ZonePoint) -> u32
    ensures { result ≡ marks_of point.now }
{
    u32::from(point.on) + (u32::from(point.touched_x) * 2 + u32::from(point.touched_y) * 4)
}

/// Adds the words of a place.
fn push_place(words: &mut Vec<u32>, place: &Place) -> Result<(), AllocError>
    ensures words { OnOk result (words.new.items ≡ words.old.items ++ place_words place.now) }
    ensures x { OnOk result (FitsSigned w32 place.now.x) }
    ensures y { OnOk result (FitsSigned w32 place.now.y) }
{
    words.push(place.x.0.cast_unsigned())?;
    words.push(place.y.0.cast_unsigned())?;
    Ok(())
}

/// Adds the words of a point.
fn push_point(words: &mut Vec<u32>, point: &ZonePoint) -> Result<(), AllocError>
    ensures words { OnOk result (words.new.items ≡ words.old.items ++ point_words point.now) }
    ensures numbered { OnOk result (IsPoint point.now) }
{
    push_place(words, &point.org)?;
    push_place(words, &point.cur)?;
    words.push(marks_of(point))?;
    Ok(())
}

/// Adds the words of points, five for each.
pub(crate) fn push_points(words: &mut Vec<u32>, points: &[ZonePoint]) -> Result<(), AllocError>
    ensures words { OnOk result (words.new.items ≡ words.old.items ++ flat_map point_words points.now) }
    ensures numbered { OnOk result (ArePoints points.now) }
{
    // The words of the points so far were added.
    'points: for point in points {
        push_point(words, point)?;
    }
    Ok(())
}

/// The zone of the points of words, five for each, without contours.
pub(crate) fn zone_of(alloc: Global, count: usize, words: &[u32]) -> Result<Zone, AllocError>
    requires { length words.now ≡ 5 * count }
    ensures { IfOk result (λ z. z ≡ record { points = points_in count words.now; ends = [] }) }
{
    let mut points = Vec::with_capacity(alloc, count)?;
    // The points so far are those of their words, and there is room for the others.
    'points: for i in 0..count {
        points.push_reserved(point_in(&words[5 * i..]));
    }
    Ok(Zone::of(points, Vec::new(alloc)))
}

/// The number of a program.
fn program_number(program: Program) -> u32
    ensures value { result ≡ program_number program }
    ensures small { result ≤ 2 }
{
    match program {
        Program::Font => 0,
        Program::Prep => 1,
        Program::Glyph => 2,
    }
}

/// The program of a number.
fn program_in(number: u32) -> Program
    ensures { result ≡ program_in number }
{
    if number == 0 {
        return Program::Font;
    }
    if number == 1 {
        return Program::Prep;
    }
    Program::Glyph
}

/// The function of a word, which is 0 for none.
fn function_in(word: u32) -> Option<Function>
    ensures { result ≡ function_in word }
{
    if word == 0 {
        return None;
    }
    Some(Function {
        program: program_in((word - 1) % 3),
        address: ((word - 1) / 3) as usize,
    })
}

/// Whether a function has a word: its address is below 2^30.
fn is_near(function: &Option<Function>) -> bool
    ensures { result ≡ is_near function.now }
{
    match function {
        Some(function) => function.address < 1_073_741_824,
        None => true,
    }
}

/// Whether each function has a word.
pub(crate) fn are_near(functions: &[Option<Function>]) -> bool
    ensures { result ≡ list_all is_near functions.now }
{
    functions.iter().all(is_near)
}

/// The word of a function, 0 for none.
fn function_word(function: Option<Function>) -> u32
    requires { is_near function ≡ true }
    ensures { result ≡ function_word function }
{
    match function {
        Some(function) => function.address as u32 * 3 + program_number(function.program) + 1,
        None => 0,
    }
}

/// Adds the words of functions, one for each.
pub(crate) fn push_functions(
    words: &mut Vec<u32>,
    functions: &[Option<Function>],
) -> Result<(), AllocError>
    requires { list_all is_near functions.now ≡ true }
    ensures { OnOk result (words.new.items ≡ words.old.items ++ map function_word functions.now) }
{
    // The words of the functions so far were added.
    'functions: for function in functions {
        words.push(function_word(*function))?;
    }
    Ok(())
}

/// Whether all words are 0. It looks at all of them, so that many are compared at a time.
fn are_none(words: &[u32]) -> bool
    ensures { IsTrue result → (k : ℕ) → k < length words.now → slice_index words.now k ≡ 0 }
{
    let mut greatest = 0;
    // No word so far is above `greatest`.
    'words: for i in 0..words.len() {
        greatest = words[i].max(greatest);
    }
    greatest == 0
}

/// A number of words after which all are 0: less than twice as many as there are up to the last one that is not.
pub(crate) fn used_of(words: &[u32]) -> usize
    ensures inside { result ≤ length words.now }
    ensures rest { (k : ℕ) → result ≤ k → k < length words.now → slice_index words.now k ≡ 0 }
{
    if are_none(words) {
        return 0;
    }
    let mut used = words.len();
    // The words from `used` on are 0.
    'halves: while 0 < used && are_none(&words[used / 2..used]) {
        used /= 2;
    }
    used
}

/// The functions of words, one for each, with room for more.
pub(crate) fn functions_of(
    alloc: Global,
    room: usize,
    words: &[u32],
) -> Result<Vec<Option<Function>>, AllocError>
    requires { length words.now ≤ room }
    ensures items { IfOk result (λ v. v.items ≡ map function_in words.now) }
    ensures room { IfOk result (λ v. room ≤ vec_capacity v) }
{
    let mut functions = Vec::with_capacity(alloc, room)?;
    // The functions so far are those of their words, and there is room for the others.
    'words: for word in words {
        functions.push_reserved(function_in(*word));
    }
    Ok(functions)
}
