ghost use Rattle.std.specs.Prelude.{◌≡◌, None, Some, IsOk, OnOk, OnErr};
ghost use Rattle.object.specs.declared.command.Command.{Command};
ghost use Rattle.ballot.specs.declared.letter.Letter.{Letter};
ghost use Rattle.node.specs.declared.deed.Deed.TheVariants as deeds;
ghost use Rattle.network.specs.Networks.{mail_of, front};
ghost use Rattle.hall.specs.Recorded.{done, without_front_letter, repeated};
ghost use Rattle.hall.specs.Halls.{with_nodes};
ghost use Rattle.hall.specs.Refusals.{node_refusal};
ghost use Rattle.turns.specs.declared.mishap.Mishap.TheVariants as mishaps;

use hall::{Hall, HallError};
use object::Object;

/// What befalls a node before one of its turns.
#[derive(Clone, Copy, Debug, PartialEq, Eq)]
pub enum Mishap {
    /// Nothing does.
    None,
    /// The letter in front of its mail is lost.
    Lose,
    /// The letter in front of its mail comes again, behind the others.
    Repeat,
    /// The node stops and begins anew, with what its acceptor keeps.
    Restart,
}

/// The mishap befalls the node. One that the hall refuses changes nothing.
pub fn befall<O: Object>(hall: &mut Hall<O>, node: u8, mishap: Mishap) -> Result<(), HallError>
    ensures none { mishap ≡ mishaps.None → hall.new ≡ hall.old }
    ensures lost { OnOk result (mishap ≡ mishaps.Lose →
        hall.new ≡ with_nodes hall.old (without_front_letter hall.old.nodes node)) }
    ensures repeated { OnOk result (mishap ≡ mishaps.Repeat → (l : Letter (Command O.Op))
        → front (mail_of hall.old.nodes.network node) ≡ Some l
        → hall.new ≡ with_nodes hall.old (repeated hall.old.nodes node l)) }
    ensures no_letter { OnOk result (mishap ≡ mishaps.Repeat →
        front (mail_of hall.old.nodes.network node) ≡ None → hall.new ≡ hall.old) }
    ensures restarted { OnOk result (mishap ≡ mishaps.Restart →
        hall.new ≡ with_nodes hall.old (done O.rules hall.old.nodes node deeds.Restart)) }
    ensures succeeds { mishap ≡ mishaps.Lose → node_refusal hall.old node ≡ None → IsOk result }
    ensures err { OnErr result (hall.new ≡ hall.old) }
    ensures book { hall.new.book ≡ hall.old.book }
{
    match mishap {
        Mishap::None => Ok(()),
        Mishap::Lose => {
            hall.lose(node)?;
            Ok(())
        }
        Mishap::Repeat => {
            hall.repeat(node)?;
            Ok(())
        }
        Mishap::Restart => hall.restart(node),
    }
}
