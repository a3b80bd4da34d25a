ghost use Rattle.std.specs.Prelude.{◌≡◌, ℕ, List};
ghost use Rattle.object.specs.declared.command.Command.{Command};
ghost use Rattle.ballot.specs.declared.letter.LetterBody.{LetterBody};
ghost use Rattle.node.specs.Nodes.{NodeState};
ghost use Rattle.node.specs.Deeds.{acted, outcome_of, IsAble};
ghost use Rattle.node.specs.Receiving.{IsFit, ShowsNode};
ghost use Rattle.node.specs.Turns.{IsSameTurn};
ghost use Rattle.node.specs.declared.deed.Deed.{Deed};

use object::Object;

/// A node does what every node does that it shows: it is able to where that one is (`able`), it becomes what shows what
/// that one becomes, and sends and answers the same (`turn`), and the same comes of it (`outcome`). It may receive what
/// that one may receive (`fit`).
pub fn deeds_are_shown<O: Object>()
    ensures able { (kept x : NodeState (Command O.Op)) (d : Deed O.Op) → ShowsNode kept x →
        IsAble x d → IsAble kept d }
    ensures turn { (members : List ℕ) (n : ℕ) (kept x : NodeState (Command O.Op)) (d : Deed O.Op) →
        ShowsNode kept x →
        IsSameTurn (acted O.rules members n kept d) (acted O.rules members n x d) }
    ensures outcome { (kept x : NodeState (Command O.Op)) (d : Deed O.Op) → ShowsNode kept x →
        outcome_of kept d ≡ outcome_of x d }
    ensures fit { (kept x : NodeState (Command O.Op)) (body : LetterBody (Command O.Op)) →
        ShowsNode kept x → IsFit x body → IsFit kept body }
{}
