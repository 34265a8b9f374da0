ghost use Rattle.std.specs.Prelude.{◌≡◌};
ghost use Rattle.unit_plan.specs.declared.plan_error.PlanError.TheVariants.{Refused};
ghost use Rattle.unit_plan.specs.PlanError.{Gives, check};

use std::alloc::{AllocError, AllocFailed};
use thiserror::Error;

/// What is wrong with a line of a plan (profile), in the order in which it is tested.
#[derive(Clone, Copy, Debug, PartialEq, Eq, Error)]
pub enum PlanCause {
    /// The text has more than [`MOST_OCTETS`](crate::MOST_OCTETS). The line is 1.
    #[error("text has more than 65,536 octets")]
    Long,
    /// The words have none of the forms.
    #[error("words have none of the forms")]
    Form,
    /// One of the first five lines stands elsewhere or is missing.
    #[error("one of the first five lines stands elsewhere or is missing")]
    Order,
    /// A number or a list is out of bounds.
    #[error("number or list is out of bounds")]
    Range,
    /// A link, channel, key or association has a line already, or a place on a link a channel.
    #[error("link, channel, key, association or place has a line already")]
    Twice,
    /// A link, channel or key is named that has no line before.
    #[error("link, channel or key has no line before")]
    Unknown,
    /// The keys or associations refuse what the line does.
    #[error("keys or associations refuse what it does")]
    Refused,
}

/// The first line of a plan that has a cause, and the cause.
#[derive(Clone, Copy, Debug, PartialEq, Eq, Error)]
#[error("line {line}: {cause}")]
pub struct PlanFault {
    /// Counted from 1, skipped lines with them.
    pub line: u32,
    pub cause: PlanCause,
}

/// Why there is no plan.
#[derive(Clone, Copy, Debug, PartialEq, Eq, Error)]
pub enum PlanError {
    #[error("{0}")]
    Refused(PlanFault),
    /// Memory ran out.
    #[error("no memory")]
    NoMemory,
}

impl From<AllocError> for PlanError {
    ghost use Rattle.std.specs.Prelude.{◌≡◌};
    ghost use Rattle.unit_plan.specs.declared.plan_error.PlanError.TheVariants.{NoMemory};

    ghost from_gives = { λ _ e. e ≡ NoMemory };

    fn from(_wanting: AllocError) -> PlanError {
        PlanError::NoMemory
    }
}

impl<T: Drop> From<AllocFailed<T>> for PlanError {
    ghost use Rattle.std.specs.Prelude.{◌≡◌};
    ghost use Rattle.unit_plan.specs.declared.plan_error.PlanError.TheVariants.{NoMemory};

    ghost from_gives = { λ _ e. e ≡ NoMemory };

    fn from(_wanting: AllocFailed<T>) -> PlanError {
        PlanError::NoMemory
    }
}

pub(crate) fn refused(line: u32, cause: PlanCause) -> PlanError
    ensures { result ≡ Refused (record { line = line; cause = cause }) }
{
    PlanError::Refused(PlanFault { line, cause })
}

/// Refuses a line for a cause, unless a rule holds.
pub(crate) fn check(line: u32, cause: PlanCause, holds: bool) -> Result<(), PlanError>
    ensures { Gives result (check line cause holds) }
{
    if holds {
        Ok(())
    } else {
        Err(refused(line, cause))
    }
}
