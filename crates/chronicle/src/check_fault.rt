use std::alloc::AllocError;
use thiserror::Error;

/// What is wrong with a line of a queue's dump.
#[derive(Clone, Copy, Debug, PartialEq, Eq, Error)]
pub enum What {
    /// A key of the order has no submission.
    #[error("not submitted")]
    NotSubmitted,
    /// A key of the order isn't greater than each earlier one of its session.
    #[error("not kept")]
    NotKept,
    /// The key was submitted on an earlier line.
    #[error("submitted twice")]
    SubmittedTwice,
    /// The key stands in the order before or at the place of an answer on an earlier line.
    #[error("placed too early")]
    PlacedTooEarly,
    /// The queue that obeys the order gives the key no answer, or another.
    #[error("not the queue's answer")]
    NotTheQueuesAnswer,
}

/// Why a chronicle isn't found right.
#[derive(Clone, Copy, Debug, PartialEq, Eq, Error)]
pub enum CheckFault {
    #[error("out of memory")]
    OutOfMemory,
    /// The line of the dump, counted from 1, and what is wrong with it.
    #[error("line {0}: {1}")]
    At(u64, What),
}

impl From<AllocError> for CheckFault {
    ghost use Rattle.std.specs.Prelude.{◌≡◌};
    ghost use Rattle.chronicle.specs.declared.check_fault.CheckFault.{CheckFault};
    ghost use Rattle.chronicle.specs.declared.check_fault.CheckFault.TheVariants.{OutOfMemory};

    ghost from_gives = { λ _ fault. fault ≡ OutOfMemory };

    fn from(_: AllocError) -> CheckFault {
        CheckFault::OutOfMemory
    }
}
