ghost use Rattle.std.specs.Prelude.{[], ◌∷◌, ◌≡◌, false, length, IfOk, OnOk, Ok};
ghost use Rattle.lean_network.specs.LeanNetworks.{lean_mail_of, lean_node_of};
ghost use Rattle.lean_network.specs.Receipts.{receipt_of};
ghost use Rattle.network.specs.Networks.{front};
ghost use Rattle.node.specs.Holding.{outcome_held};
ghost use Rattle.node.specs.declared.deed.Outcome.TheVariants.{Idle};
ghost use Rattle.lean_network.specs.declared.receipt.Receipt.TheVariants.{Nothing};
ghost use Rattle.forgetting_hall.specs.Leading.{TurnsOn};
ghost use Rattle.forgetting_hall.specs.Refusing.{is_foreign};
ghost use Rattle.forgetting_hall.specs.Rests.{IsGoingOn};
ghost use Rattle.forgetting_hall.specs.Working.{lean_work_of};

use super::ForgettingHall;
use crate::leading::leads_on;
use crate::telling::tells_in_order;
use ballot::Slot;
use hall::{HallError, Work};
use lean_network::Receipt;
use node::{Deed, Outcome};
use object::Object;
use turns::Nodes;

/// Its nodes take turns as those of a hall that keeps all.
impl<O: Object> Nodes for ForgettingHall<O> {
    ghost use Rattle.forgetting_hall.specs.LeadingLaws.{turns_stay, turns_further, turns_as_many};

    // How many commands all sessions and the clock handed in, and how many sessions were opened.
    ghost handed_in = { λ hall. hall.summary.submitted ∷ hall.opened ∷ [] };

    ghost node_count = { λ hall. length hall.network.members };

    ghost work_of = { λ hall n. lean_work_of O.rules hall n };

    // What it gathers is what takes effect, in the one order, and its worlds lead on.
    ghost goes_on = { λ old new. TurnsOn O.rules old new };

    ghost stays = { turns_stay O.rules };

    ghost further = { turns_further O.rules };

    ghost as_many = { turns_as_many O.rules };

    fn count(&self) -> u8 {
        self.members().count()
    }

    fn work(&self, node: u8) -> Work {
        self.work(node)
    }

    fn undecided(&self, node: u8) -> Option<Slot> {
        self.undecided(node)
    }

    fn wake(&mut self, node: u8) -> Result<(), HallError> {
        self.take_turn(node, Deed::Wake)?;
        Ok(())
    }

    fn nudge(&mut self, node: u8) -> Result<(), HallError> {
        self.take_turn(node, Deed::Nudge)?;
        Ok(())
    }

    fn propose(&mut self, node: u8) -> Result<bool, HallError> {
        let outcome = self.take_turn(node, Deed::Propose)?;
        Ok(!matches!(outcome, Outcome::Idle))
    }

    fn deliver(&mut self, node: u8) -> Result<bool, HallError> {
        let receipt = self.receive(node)?;
        Ok(!matches!(receipt, Receipt::Nothing))
    }

    fn perform(&mut self, node: u8) -> Result<bool, HallError> {
        let outcome = self.take_turn(node, Deed::Perform)?;
        Ok(!matches!(outcome, Outcome::Idle))
    }
}

impl<O: Object> ForgettingHall<O> {
    // A node does something by itself. Where nothing comes of it, the work of all nodes stays.
    fn take_turn(&mut self, node: u8, deed: Deed<O::Op>) -> Result<Outcome, HallError>
        requires { IsGoingOn deed }
        ensures kept { self.new.summary.submitted ≡ self.old.summary.submitted }
        ensures opened { self.new.opened ≡ self.old.opened }
        ensures turned { TurnsOn O.rules self.old self.new }
        ensures outcome { IfOk result (λ outcome. outcome
            ≡ outcome_held (lean_node_of O.rules self.old.network node) deed) }
        ensures member { OnOk result (is_foreign self.old node ≡ false) }
        ensures calm { result ≡ Ok Idle →
            lean_work_of O.rules self.new ≡ lean_work_of O.rules self.old }
    {
        tells_in_order::<O>();
        leads_on::<O>();
        self.act(node, deed)
    }

    // It receives the letter in front of its mail. Where there is none, the work of all nodes stays.
    fn receive(&mut self, node: u8) -> Result<Receipt, HallError>
        ensures kept { self.new.summary.submitted ≡ self.old.summary.submitted }
        ensures opened { self.new.opened ≡ self.old.opened }
        ensures turned { TurnsOn O.rules self.old self.new }
        ensures came { IfOk result (λ came. came
            ≡ receipt_of self.old.base (front (lean_mail_of self.old.network node))) }
        ensures member { OnOk result (is_foreign self.old node ≡ false) }
        ensures calm { result ≡ Ok Nothing →
            lean_work_of O.rules self.new ≡ lean_work_of O.rules self.old }
    {
        tells_in_order::<O>();
        leads_on::<O>();
        self.deliver(node)
    }
}
