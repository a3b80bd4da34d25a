ghost use Rattle.std.specs.Prelude.{◌≡◌, ◌≢◌, ℕ, List, length, map, true, false};
ghost use Rattle.object.specs.declared.command.Command.{Command};
ghost use Rattle.ballot.specs.Members.{is_member};
ghost use Rattle.ballot.specs.declared.letter.Letter.{Letter};
ghost use Rattle.ballot.specs.declared.letter.LetterBody.{LetterBody};
ghost use Rattle.node.specs.Holding.{Holding};
ghost use Rattle.node.specs.Rests.{rest_of_node};
ghost use Rattle.network.specs.Networks.{new_network, node_of, turned_net, without_front, with_last, IsDelivered};
ghost use Rattle.lean_network.specs.LeanNetworks.{LeanState, states, new_lean, lean_node_of, object_of, turned_lean};
ghost use Rattle.lean_network.specs.LeanNetworks.{lean_without_front, lean_with_last, forgotten_lean, IsLeanDelivered};

use object::Object;

/// As far as slots and letters go, nodes that can forget are a network: each has the state of the network's node
/// (`nodes`), they begin as one (`opened`), and what happens to them happens to it: a node turns (`turned`), or receives
/// what is left of a letter (`delivered`); a letter is lost, or comes once more (`lost`, `repeated`); and slots are
/// forgotten (`forgotten`). The object of a node that turns is the new one (`own`), and all others stay (`others`,
/// `strangers`). No object changes as a letter is received (`as_before`), as mails do (`mailed`), or as slots are forgotten
/// (`kept`).
pub fn lean_networks<O: Object>()
    ensures nodes { (k : LeanState O.Op O) (n : ℕ) → node_of (states k) n ≡ (lean_node_of O.rules k n).state }
    ensures opened { (members : List ℕ) → states (new_lean O.rules members) ≡ new_network members }
    ensures turned { (k : LeanState O.Op O) (n : ℕ) (h : Holding O.Op O) (out : List (Letter (Command O.Op))) →
        states (turned_lean k n h out) ≡ turned_net (states k) n h.state out }
    ensures delivered { (k z : LeanState O.Op O) (n : ℕ) (l : Letter (Command O.Op)) (left : LetterBody (Command O.Op)) →
        IsLeanDelivered O.rules k n l left z → IsDelivered (states k) n (record l { body = left }) (states z) }
    ensures lost { (k : LeanState O.Op O) (n : ℕ) → states (lean_without_front k n) ≡ without_front (states k) n }
    ensures repeated { (k : LeanState O.Op O) (n : ℕ) (l : Letter (Command O.Op)) →
        states (lean_with_last k n l) ≡ with_last (states k) n l }
    ensures forgotten { (base : ℕ) (k : LeanState O.Op O) →
        states (forgotten_lean base k) ≡ record (states k) { nodes = map (rest_of_node base) (states k).nodes } }
    ensures own { (k : LeanState O.Op O) (n : ℕ) (h : Holding O.Op O) (out : List (Letter (Command O.Op))) →
        length k.nodes ≡ length k.members → is_member k.members n ≡ true →
        object_of O.rules (turned_lean k n h out) n ≡ h.object }
    ensures others { (k : LeanState O.Op O) (n m : ℕ) (h : Holding O.Op O) (out : List (Letter (Command O.Op))) →
        m ≢ n → object_of O.rules (turned_lean k n h out) m ≡ object_of O.rules k m }
    ensures strangers { (k : LeanState O.Op O) (n : ℕ) (h : Holding O.Op O) (out : List (Letter (Command O.Op))) →
        length k.nodes ≡ length k.members → is_member k.members n ≡ false →
        object_of O.rules (turned_lean k n h out) n ≡ object_of O.rules k n }
    ensures as_before { (k z : LeanState O.Op O) (n m : ℕ) (l : Letter (Command O.Op)) (left : LetterBody (Command O.Op)) →
        IsLeanDelivered O.rules k n l left z → object_of O.rules z m ≡ object_of O.rules k m }
    ensures mailed { (k : LeanState O.Op O) (n : ℕ) (mails : List (List (Letter (Command O.Op)))) →
        object_of O.rules (record k { mails = mails }) n ≡ object_of O.rules k n }
    ensures kept { (base : ℕ) (k : LeanState O.Op O) (n : ℕ) →
        object_of O.rules (forgotten_lean base k) n ≡ object_of O.rules k n }
{}
