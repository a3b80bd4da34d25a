use journal::JournalFault;
use log_file::OpenFault;
use recovery::RecoverFault;
use thiserror::Error;

/// Why nothing starts from a log.
#[derive(Clone, Copy, Debug, Drop, Error)]
pub(crate) enum StartFault {
    /// It can't be opened, or isn't read.
    #[error("{0}")]
    Unopened(OpenFault),
    /// No hall obeys it.
    #[error("{0}")]
    Unobeyed(RecoverFault),
    /// The ends of its open sessions aren't kept in it.
    #[error("{0}")]
    Unkept(JournalFault),
}

impl From<OpenFault> for StartFault {
    fn from(fault: OpenFault) -> StartFault {
        StartFault::Unopened(fault)
    }
}

impl From<RecoverFault> for StartFault {
    ghost use Rattle.std.specs.Prelude.{◌≡◌};
    ghost use Rattle.recovery.specs.declared.fault.RecoverFault.{RecoverFault};
    ghost use Rattle.beanpax.specs.declared.start_fault.StartFault.{StartFault};
    ghost use Rattle.beanpax.specs.declared.start_fault.StartFault.TheVariants.{Unobeyed};

    ghost from_gives = { λ f s. s ≡ Unobeyed f };

    fn from(fault: RecoverFault) -> StartFault {
        StartFault::Unobeyed(fault)
    }
}

impl From<JournalFault> for StartFault {
    fn from(fault: JournalFault) -> StartFault {
        StartFault::Unkept(fault)
    }
}
