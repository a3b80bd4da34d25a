/// Why an operation has no reply.
#[derive(Clone, Copy, Debug, PartialEq, Eq)]
pub enum Unanswered {
    /// There was no memory to hand it in: it never was.
    Refused,
    /// It was handed in, but too many calls or too many seconds brought no reply, or no second more could pass; or the hall
    /// refuses it for another reason than memory.
    Stopped,
}

/// What was handed in isn't carried on: too many calls brought nothing.
#[derive(Clone, Copy, Debug, PartialEq, Eq)]
pub(crate) struct Stopped;

impl From<Stopped> for Unanswered {
    ghost use Rattle.std.specs.Prelude.{◌≡◌};
    ghost use Rattle.simulated_hall.specs.declared.unanswered.Unanswered.{Unanswered};
    ghost use Rattle.simulated_hall.specs.declared.unanswered.Unanswered.TheVariants as unanswered;

    ghost from_gives = { λ _ error. error ≡ unanswered.Stopped };

    fn from(_: Stopped) -> Unanswered {
        Unanswered::Stopped
    }
}
