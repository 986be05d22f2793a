ghost use Rattle.std.specs.Prelude.{◌≡◌, max};
ghost use Rattle.sccs_steps.specs.Statuses.{idle_status, joined_status, with_status, zero_or_greater};

use sccs_sid::StepFault;

/// How the statuses of several steps become one.
#[derive(Clone, Copy, Debug, PartialEq, Eq)]
pub enum StatusRule {
    /// The greatest counts; 0 where no step is made.
    Greatest,
    /// 0 where one of them is 0, else the greatest; 1 where no step is made.
    AnyZero,
}

// 0 where one of two is 0, else the greater
fn zero_or_greater(a: u8, b: u8) -> u8
    ensures { result ≡ zero_or_greater a b }
{
    if a == 0 {
        return 0;
    }
    if b == 0 {
        return 0;
    }
    greater(a, b)
}

/// The greater of two statuses.
pub fn greater(a: u8, b: u8) -> u8
    ensures { result ≡ max a b }
{
    if a < b { b } else { a }
}

impl StatusRule {
    /// The status where no step is made.
    pub fn idle(self) -> u8
        ensures { result ≡ idle_status self }
    {
        match self {
            StatusRule::Greatest => 0,
            StatusRule::AnyZero => 1,
        }
    }

    /// The status of steps and of those behind them.
    pub fn joined(self, a: u8, b: u8) -> u8
        ensures { result ≡ joined_status self a b }
    {
        match self {
            StatusRule::Greatest => greater(a, b),
            StatusRule::AnyZero => zero_or_greater(a, b),
        }
    }
}

/// What the step of an ordinary utility answers, with its status: that of a step that is made is 0.
pub fn with_status(made: Result<(), StepFault>) -> Result<u8, StepFault>
    ensures { result ≡ with_status made }
{
    match made {
        Ok(()) => Ok(0),
        Err(fault) => Err(fault),
    }
}
