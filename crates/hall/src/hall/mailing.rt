ghost use Rattle.std.specs.Prelude.{◌≡◌, None, Some, IsOk, IfOk, OnOk, OnErr};
ghost use Rattle.object.specs.declared.command.Command.{Command};
ghost use Rattle.ballot.specs.declared.letter.Letter.{Letter};
ghost use Rattle.network.specs.Networks.{mail_of, front, has_mail};
ghost use Rattle.hall.specs.declared.error.HallError.{HallError};
ghost use Rattle.hall.specs.declared.error.HallError.TheVariants.{NoSuchNode};
ghost use Rattle.hall.specs.Recorded.{RecordedState, HasReceived, without_front_letter, repeated};
ghost use Rattle.hall.specs.Shows.{FollowsDelivery, ShowsOn};
ghost use Rattle.hall.specs.Halls.{with_nodes};
ghost use Rattle.hall.specs.Refusals.{event_refusal, node_refusal, RefusesOrIdles};

use super::Hall;
use crate::error::HallError;
use crate::laws::laws_below;
use object::Object;

impl<O: Object> Hall<O> {
    /// A node receives the letter in front of its mail; false where there is none, which takes no memory.
    pub fn deliver(&mut self, node: u8) -> Result<bool, HallError>
        ensures came { IfOk result (λ came. came ≡ has_mail self.old.nodes.network node) }
        ensures ok { OnOk result ((l : Letter (Command O.Op))
            → front (mail_of self.old.nodes.network node) ≡ Some l
            → (k : RecordedState O.Op O.Reply) × HasReceived self.old.nodes node l k
            × (self.new ≡ with_nodes self.old k)) }
        ensures event { OnOk result ((l : Letter (Command O.Op))
            → front (mail_of self.old.nodes.network node) ≡ Some l
            → FollowsDelivery O.rules self.old.nodes l self.new.nodes) }
        ensures past { self.new.nodes.past ≡ self.old.nodes.past }
        ensures book { self.new.book ≡ self.old.book }
        ensures refused { RefusesOrIdles (event_refusal self.old node)
            (front (mail_of self.old.nodes.network node) ≡ None) result self.old self.new }
    {
        laws_below::<O>();
        if let Some(refused) = self.event_refusal(node) {
            return Err(refused);
        }
        let came = self.nodes.deliver(node)?;
        Ok(came)
    }

    /// Drops the letter in front of a node's mail; false where there is none. It takes no memory.
    pub fn lose(&mut self, node: u8) -> Result<bool, HallError>
        ensures came { IfOk result (λ came. came ≡ has_mail self.old.nodes.network node) }
        ensures ok { OnOk result (self.new ≡ with_nodes self.old (without_front_letter self.old.nodes node)) }
        ensures still { ShowsOn self.old.nodes self.new.nodes }
        ensures past { self.new.nodes.past ≡ self.old.nodes.past }
        ensures book { self.new.book ≡ self.old.book }
        ensures err { OnErr result (self.new ≡ self.old) }
        ensures refused { (r : HallError) → node_refusal self.old node ≡ Some r → result ≡ Err r }
        ensures succeeds { node_refusal self.old node ≡ None → IsOk result }
    {
        laws_below::<O>();
        if self.is_stranger(node) {
            return Err(HallError::NoSuchNode);
        }
        Ok(self.nodes.lose(node))
    }

    /// Copies the letter in front of a node's mail to its back; false where there is none, which takes no memory.
    pub fn repeat(&mut self, node: u8) -> Result<bool, HallError>
        ensures came { IfOk result (λ came. came ≡ has_mail self.old.nodes.network node) }
        ensures ok { OnOk result ((l : Letter (Command O.Op))
            → front (mail_of self.old.nodes.network node) ≡ Some l
            → self.new ≡ with_nodes self.old (repeated self.old.nodes node l)) }
        ensures still { ShowsOn self.old.nodes self.new.nodes }
        ensures past { self.new.nodes.past ≡ self.old.nodes.past }
        ensures book { self.new.book ≡ self.old.book }
        ensures refused { RefusesOrIdles (node_refusal self.old node)
            (front (mail_of self.old.nodes.network node) ≡ None) result self.old self.new }
    {
        laws_below::<O>();
        if self.is_stranger(node) {
            return Err(HallError::NoSuchNode);
        }
        let came = self.nodes.repeat(node)?;
        Ok(came)
    }
}
