//! The texts of faults that no command prints.
use fx_gstate::BadArgument;
use fx_stackops::StackFault;
use std::alloc::Global;
use std::fmt::Display;
use std::test::Fail;

/// Whether this is the text of a fault.
fn says<D: Display + Drop>(alloc: Global, fault: D, text: &str) -> Result<bool, Fail> {
    Ok(format!(in alloc; "{fault}")?.as_str() == text)
}

#[test]
fn faults_say_what_is_wrong(rt: HostRuntime) -> Result<(), Fail> {
    for &(fault, text) in &[
        (StackFault::StackUnder, "the stack holds too few numbers"),
        (StackFault::StackOver, "the stack is full"),
        (StackFault::DivideByZero, "a division by zero"),
        (StackFault::BadArgument, "an operand is out of range"),
    ] {
        assert!(rt; says(rt.alloc(), fault, text)?);
    }
    let text = "the argument of an instruction is out of range";
    assert!(rt; says(rt.alloc(), BadArgument, text)?);
    Ok(())
}
