ghost use Rattle.std.specs.Prelude.{◌≡◌, ◌↔◌, true};
ghost use Rattle.hall.specs.Halls.{IsBorneOut, AreBorneOut, Agrees};

use super::Hall;
use crate::laws::laws_below;
use crate::ticket::{NotedAct, Ticket};
use object::{Key, Object};

impl<O: Object> Hall<O> {
    /// Whether the ticket's session was opened, its acts are all that was submitted of that session, in order, and each
    /// reply in it is the answer to its command. It takes no memory.
    pub fn agrees(&self, ticket: &Ticket<O>) -> bool
        ensures { (result ≡ true) ↔ Agrees self.now ticket.now }
    {
        laws_below::<O>();
        let _ = &self.book;
        self.is_last(ticket.last_key()) && self.bears_out_all(ticket.session(), ticket.acts())
    }

    // Whether each of these acts of a session, from the first on, was submitted under its key, and the reply noted for it
    // is the answer to it.
    fn bears_out_all(&self, session: u32, acts: &[NotedAct<O::Op, O::Reply>]) -> bool
        ensures { (result ≡ true) ↔ AreBorneOut self.now session acts.now }
    {
        for place in 0..acts.len() {
            let key = Key {
                session,
                number: place as u64 + 1,
            };
            if !self.bears_out(key, &acts[place]) {
                return false;
            }
        }
        true
    }

    // Whether the act was submitted under the key, and its reply, where one is noted, is the answer to it.
    fn bears_out(&self, key: Key, noted: &NotedAct<O::Op, O::Reply>) -> bool
        ensures { (result ≡ true) ↔ IsBorneOut self.now key noted.now }
    {
        let Some(submission) = self.nodes.recorder.submission_of(key) else {
            return false;
        };
        if *submission.command.act() != noted.act {
            return false;
        }
        let Some(reply) = &noted.reply else {
            return true;
        };
        match self.nodes.recorder.answer_to(key) {
            Some(given) => given == reply,
            None => false,
        }
    }
}
