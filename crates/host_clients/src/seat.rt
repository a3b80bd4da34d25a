ghost use Rattle.std.specs.Prelude.{◌≡◌, ◌<◌, ◌+◌, true, false, ◌↔◌, IfSome};
ghost use Rattle.object.specs.declared.command.Act.TheVariants.{Close};
ghost use Rattle.host_clients.specs.Clients.{IsLastOfSeat, IsEndOf, heard, last_number};

use object::{Act, Answer, Command, Key};

/// The greatest number of a command. A session's own commands stay below it.
pub(crate) const LAST_NUMBER: u64 = 1 << 62;

/// What is kept of a session: the number of its last command, and, while it is open, that command and the reply to it,
/// where these are there.
#[derive(Drop)]
pub struct Seat<Op, Reply> {
    pub number: u64,
    /// Whether a client has the session.
    pub is_open: bool,
    pub last: Option<Command<Op>>,
    pub reply: Option<Reply>,
}

impl<Op, Reply> Seat<Op, Reply> {
    /// The number of the session's next command, where one is left.
    pub(crate) fn next_number(&self) -> Option<u64>
        ensures { IfSome result (λ number. (number ≡ self.now.number + 1) × (number < last_number)) }
    {
        let next = self.number.checked_add(1)?;
        if next < LAST_NUMBER { Some(next) } else { None }
    }

    /// Whether the last command has this key, and is the session's end.
    pub(crate) fn ends_with(&self, key: Key) -> bool
        ensures yes { result ≡ true → IsEndOf self.now key }
        ensures no { result ≡ false → IsEndOf self.now key → ⊥ }
    {
        match &self.last {
            None => false,
            Some(last) => last.key() == key && is_end(last.act()),
        }
    }

    /// Whether the key is that of the last command.
    pub(crate) fn is_last(&self, key: Key) -> bool
        ensures { (result ≡ true) ↔ IsLastOfSeat self.now key }
    {
        match &self.last {
            None => false,
            Some(last) => last.key() == key,
        }
    }
}

impl<Op: Drop, Reply: Drop> Seat<Op, Reply> {
    /// Takes the answer for its reply, where it is one to its last command, unless it has a reply.
    pub(crate) fn hear(&mut self, answer: Answer<Reply>)
        ensures { self.new ≡ heard answer self.old }
    {
        if self.reply.is_none() && self.is_last(answer.to) {
            self.reply = Some(answer.reply);
        }
    }
}

// Whether it ends a session.
fn is_end<Op>(act: &Act<Op>) -> bool
    ensures { (result ≡ true) ↔ (act.now ≡ Close) }
{
    matches!(act, Act::Close)
}
