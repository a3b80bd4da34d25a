ghost use Rattle.std.specs.Prelude.{◌≡◌};
ghost use Rattle.conversation.specs.Talks.{stage_at_end, stage_once_gone};

use bean_words::Op;
use session::End;

/// Where a conversation stands.
#[derive(Drop)]
pub enum Stage {
    /// The next request is to be looked for.
    Looking,
    /// The next request isn't whole yet.
    Reading,
    /// This operation is the next request. It isn't handed in yet.
    Found(Op),
    /// It was handed in, and its answer isn't told yet.
    Asked,
    /// The client has quit, or its input has ended; or it has gone (`None`). Its end isn't handed in yet.
    Leaving(Option<End>),
    /// Its end was handed in.
    Left(Option<End>),
}

impl Stage {
    /// Goes to another one.
    pub(crate) fn go_to(&mut self, next: Stage)
        ensures { self.new ≡ next }
    {
        *self = next;
    }

    /// The input has ended.
    pub(crate) fn end_input(&mut self)
        ensures { self.new ≡ stage_at_end self.old }
    {
        if matches!(self, Stage::Reading) {
            *self = Stage::Leaving(Some(End::Eof));
        }
    }

    /// The client has gone.
    pub(crate) fn leave(&mut self)
        ensures { self.new ≡ stage_once_gone self.old }
    {
        if !matches!(self, Stage::Leaving(_) | Stage::Left(_)) {
            *self = Stage::Leaving(None);
        }
    }
}
