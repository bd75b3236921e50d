//! Why an instruction on the stack faults.

use thiserror::Error;

/// Why an instruction on the stack faults.
#[derive(Clone, Copy, Debug, PartialEq, Eq, Error)]
pub enum StackFault {
    /// Fewer operands than the instruction needs.
    #[error("the stack holds too few numbers")]
    StackUnder,
    /// More numbers than the stack has room for.
    #[error("the stack is full")]
    StackOver,
    /// A division by zero.
    #[error("a division by zero")]
    DivideByZero,
    /// An operand outside what it may be.
    #[error("an operand is out of range")]
    BadArgument,
}
