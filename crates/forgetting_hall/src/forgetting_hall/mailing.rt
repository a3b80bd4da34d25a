ghost use Rattle.std.specs.Prelude.{◌≡◌, None, Some, IsOk, IfOk, OnOk};
ghost use Rattle.object.specs.declared.command.Command.{Command};
ghost use Rattle.ballot.specs.declared.letter.Letter.{Letter};
ghost use Rattle.ballot.specs.declared.letter.LetterBody.{LetterBody};
ghost use Rattle.ballot.specs.Rests.{rest_of_body};
ghost use Rattle.network.specs.Networks.{front, has_mail};
ghost use Rattle.lean_network.specs.LeanNetworks.{states, lean_mail_of};
ghost use Rattle.lean_network.specs.Receipts.{receipt_of};
ghost use Rattle.hall.specs.declared.error.HallError.{HallError};
ghost use Rattle.hall.specs.Refusals.{RefusesOrIdles};
ghost use Rattle.forgetting_hall.specs.Rests.{IsReceivedRest, lost_rest, repeated_rest};
ghost use Rattle.forgetting_hall.specs.Halls.{rest_of_hall, is_received, FollowsLeft, ShowsStill};
ghost use Rattle.forgetting_hall.specs.Refusing.{refusal_of_event, refusal_of_node};
ghost use Rattle.forgetting_hall.specs.Calls.{IsNoEvent};

use super::ForgettingHall;
use crate::fitting::letters_fit;
use crate::halls::halls_rest;
use agreement::every_world;
use hall::HallError;
use lean_network::Receipt;
use object::Object;

impl<O: Object> ForgettingHall<O> {
    /// A node receives what the letter in front of its mail says of slots from the base on. A letter that speaks of an earlier
    /// slot alone is as a lost one. Where there is none, that takes no memory.
    pub fn deliver(&mut self, node: u8) -> Result<Receipt, HallError>
        ensures came { IfOk result (λ came. came
            ≡ receipt_of self.old.base (front (lean_mail_of self.old.network node))) }
        ensures ok { OnOk result ((l : Letter (Command O.Op)) (left : LetterBody (Command O.Op))
            → front (lean_mail_of self.old.network node) ≡ Some l
            → rest_of_body self.old.base l.body ≡ Some left
            → IsReceivedRest (rest_of_hall O.rules self.old) node l left (rest_of_hall O.rules self.new)) }
        ensures event { OnOk result ((l : Letter (Command O.Op)) (left : LetterBody (Command O.Op))
            → front (lean_mail_of self.old.network node) ≡ Some l
            → rest_of_body self.old.base l.body ≡ Some left
            → FollowsLeft O.rules self.old node l left self.new) }
        ensures forgotten { OnOk result ((l : Letter (Command O.Op))
            → front (lean_mail_of self.old.network node) ≡ Some l
            → rest_of_body self.old.base l.body ≡ None
            → rest_of_hall O.rules self.new ≡ lost_rest (rest_of_hall O.rules self.old) node) }
        ensures still { OnOk result ((l : Letter (Command O.Op))
            → front (lean_mail_of self.old.network node) ≡ Some l
            → rest_of_body self.old.base l.body ≡ None → ShowsStill O.rules self.old self.new) }
        ensures gathering { self.new.gathering ≡ self.old.gathering }
        ensures refused { RefusesOrIdles (refusal_of_event self.old node)
            (front (lean_mail_of self.old.network node) ≡ None) result self.old self.new }
    {
        halls_rest::<O>();
        every_world::<O>();
        letters_fit::<O>();
        if let Some(refused) = self.refusal_of_event(node) {
            return Err(refused);
        }
        let receipt = self.network.deliver(node, self.base)?;
        if is_received(receipt) {
            self.taken += 1;
        }
        Ok(receipt)
    }

    /// Drops the letter in front of a node's mail; false where there is none. It takes no memory.
    pub fn lose(&mut self, node: u8) -> Result<bool, HallError>
        ensures came { IfOk result (λ came. came ≡ has_mail (states self.old.network) node) }
        ensures ok { IsNoEvent O.rules (lost_rest (rest_of_hall O.rules self.old) node) result
            self.old self.new }
        ensures refused { (r : HallError) → refusal_of_node self.old node ≡ Some r → result ≡ Err r }
        ensures succeeds { refusal_of_node self.old node ≡ None → IsOk result }
    {
        halls_rest::<O>();
        if self.is_foreign(node) {
            return Err(HallError::NoSuchNode);
        }
        Ok(self.network.lose(node))
    }

    /// Copies the letter in front of a node's mail to its back; false where there is none, which takes no memory.
    pub fn repeat(&mut self, node: u8) -> Result<bool, HallError>
        ensures came { IfOk result (λ came. came ≡ has_mail (states self.old.network) node) }
        ensures ok { OnOk result ((l : Letter (Command O.Op))
            → front (lean_mail_of self.old.network node) ≡ Some l
            → rest_of_hall O.rules self.new ≡ repeated_rest (rest_of_hall O.rules self.old) node l) }
        ensures still { ShowsStill O.rules self.old self.new }
        ensures gathering { self.new.gathering ≡ self.old.gathering }
        ensures refused { RefusesOrIdles (refusal_of_node self.old node)
            (front (lean_mail_of self.old.network node) ≡ None) result self.old self.new }
    {
        halls_rest::<O>();
        if self.is_foreign(node) {
            return Err(HallError::NoSuchNode);
        }
        let came = self.network.repeat(node)?;
        Ok(came)
    }
}

// The node received what was left of a letter.
fn is_received(receipt: Receipt) -> bool
    ensures { result ≡ is_received receipt }
{
    matches!(receipt, Receipt::Received)
}
