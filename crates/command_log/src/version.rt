ghost use Rattle.std.specs.Prelude.{◌≡◌};
ghost use Rattle.command_log.specs.Text.{log_name};

/// The form of a log.
#[derive(Clone, Copy, Debug, PartialEq, Eq)]
pub enum LogVersion {
    /// No line says anything of another.
    One,
    /// Each line tells the sum of the line before it.
    Two,
}

impl LogVersion {
    /// What each head of this version begins with.
    pub(crate) fn name(self) -> &'static [u8]
        ensures { result.now ≡ log_name self }
    {
        match self {
            LogVersion::One => b"beanpax-log 1".as_slice(),
            LogVersion::Two => b"beanpax-log 2".as_slice(),
        }
    }
}
