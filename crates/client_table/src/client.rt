ghost use Rattle.std.specs.Prelude.{◌≡◌, ◌∷◌, [], ◌↔◌, true};
ghost use Rattle.client_table.specs.Clients.{new_client, client_of, replied, IsLast};

use object::{Answer, Command, Key};

/// A session's last command, if it has one, and the reply to it, if it was given.
#[derive(Drop)]
pub struct Client<Op, Reply> {
    pub last: Option<Command<Op>>,
    pub reply: Option<Reply>,
}

impl<Op, Reply> Client<Op, Reply> {
    /// A session that has handed in nothing.
    pub(crate) fn new() -> Client<Op, Reply>
        ensures { result ≡ new_client }
    {
        Client {
            last: None,
            reply: None,
        }
    }

    /// A session whose last command is this one, which has no reply.
    pub(crate) fn of(command: Command<Op>) -> Client<Op, Reply>
        ensures { result ≡ client_of command }
    {
        Client {
            last: Some(command),
            reply: None,
        }
    }

    // Whether the key is that of the last command.
    fn is_last(&self, key: Key) -> bool
        ensures { (result ≡ true) ↔ IsLast self.now key }
    {
        match &self.last {
            None => false,
            Some(last) => last.key() == key,
        }
    }
}

impl<Op: Drop, Reply: Drop> Client<Op, Reply> {
    /// Takes the answer for its reply, where it is one to its last command, unless it has a reply.
    pub(crate) fn hear(&mut self, answer: Answer<Reply>)
        ensures { self.new ≡ replied (answer ∷ []) self.old }
    {
        if self.reply.is_none() && self.is_last(answer.to) {
            self.reply = Some(answer.reply);
        }
    }
}
