//! What programs use up.

ghost use Rattle.std.specs.Prelude.{◌≡◌};
ghost use Rattle.fx_machine.specs.Usages.{no_usage, usage_with};

/// What programs used up: the instructions that they executed, and the numbers outside their tables that they named. Each count
/// stays at the greatest `u64`.
#[derive(Clone, Copy, Debug, PartialEq, Eq)]
pub struct Usage {
    pub steps: u64,
    pub strays: u64,
}

impl Usage {
    /// No program ran.
    pub fn none() -> Usage
        ensures { result ≡ no_usage }
    {
        Usage {
            steps: 0,
            strays: 0,
        }
    }

    /// The sum of two.
    pub fn plus(self, more: Usage) -> Usage
        ensures { result ≡ usage_with self more }
    {
        Usage {
            steps: self.steps.saturating_add(more.steps),
            strays: self.strays.saturating_add(more.strays),
        }
    }
}
