ghost use Rattle.std.specs.Prelude.{◌≡◌, ◌<◌, ◌≤◌, ◌↔◌, ℕ, List, Some, true};
ghost use Rattle.object.specs.declared.command.Command.{Command};
ghost use Rattle.object.specs.OnceOnly.{Filtered};
ghost use Rattle.ballot.specs.Members.{is_member};
ghost use Rattle.ballot.specs.declared.letter.Letter.{Letter};
ghost use Rattle.ballot.specs.declared.letter.LetterBody.{LetterBody};
ghost use Rattle.node.specs.declared.deed.Deed.{Deed};
ghost use Rattle.network.specs.Networks.{NetworkState, new_network, node_of, mail_of, front, without_front};
ghost use Rattle.std.specs.FinMap.{empty};
ghost use Rattle.agreement.specs.Nodes.{Cluster, new_cluster};
ghost use Rattle.agreement.specs.Runs.{IsWorld};
ghost use Rattle.agreement.specs.Worlds.{World};
ghost use Rattle.ballot.specs.Rests.{rest_of_body};
ghost use Rattle.forgetting_hall.specs.Firsts.{Performs, TellsFirsts, CountsFirsts};
ghost use Rattle.hall.specs.Shows.{ShowsCluster};
ghost use Rattle.forgetting_hall.specs.Shown.{ShowsRest, ObeyWorld, FollowsDeed, FollowsLetter, IsDeliveredSince, AsksForLastSubmitted, forgotten_net};

use ballot::ballot_laws;
use object::{Object, filter_remembers};

/// Nodes that have forgotten the slots up to a base, with their objects, and show a world. From slot 0 on that is what a
/// hall shows today (`today`). At first they do, with nothing forgotten (`opening`, `obey`). What a node does by itself is
/// the world's event, with the same answers and outcome (`deeds`); a letter of which something is left is delivered in the
/// world (`letters`), and one that is dropped is lost (`lost`); and where every replica has performed the slots up to a
/// higher base, nodes that forget these show on what they showed (`forget`). A replica that performs past the reach gives
/// first answers alone, and one that performs up to it gives none (`firsts`), which is what the first answers grow by
/// (`counts`).
pub fn clusters_rest<O: Object>()
    ensures today { (k : NetworkState (Command O.Op)) (w : Cluster (Command O.Op)) → ShowsCluster k w ↔ ShowsRest 0 k w }
    ensures opening { (members : List ℕ) → ShowsRest {C = Command O.Op} 0 (new_network members) (new_cluster members) }
    ensures obey { (members : List ℕ) → ObeyWorld O.rules (new_network members)
        (λ n. record { object = O.rules.fresh; latest = empty }) (new_cluster members) }
    ensures deeds { (base : ℕ) (k : NetworkState (Command O.Op)) (objects : ℕ → Filtered O) (w : World O.Op O.Reply)
        (n : ℕ) (d : Deed O.Op) →
        IsWorld O.rules w → ShowsRest base k w.cluster → ObeyWorld O.rules k objects w.cluster →
        is_member k.members n ≡ true → AsksForLastSubmitted d w.happenings.submitted →
        FollowsDeed O.rules base k objects n d w }
    ensures letters { (base : ℕ) (k z : NetworkState (Command O.Op)) (objects : ℕ → Filtered O) (w : World O.Op O.Reply)
        (n : ℕ) (l : Letter (Command O.Op)) (left : LetterBody (Command O.Op)) →
        IsWorld O.rules w → ShowsRest base k w.cluster → ObeyWorld O.rules k objects w.cluster →
        is_member k.members n ≡ true →
        front (mail_of k n) ≡ Some l → rest_of_body base l.body ≡ Some left → IsDeliveredSince k n l left z →
        FollowsLetter O.rules base n l left objects z w }
    ensures lost { (base : ℕ) (k : NetworkState (Command O.Op)) (w : World O.Op O.Reply) (n : ℕ) →
        ShowsRest base k w.cluster → ShowsRest base (without_front k n) w.cluster }
    ensures forget { (low high : ℕ) (k : NetworkState (Command O.Op)) (w : World O.Op O.Reply) →
        ShowsRest low k w.cluster → low ≤ high →
        ((n : ℕ) → is_member k.members n ≡ true → high ≤ (node_of k n).replica.slot_out) →
        ShowsRest high (forgotten_net high k) w.cluster }
    ensures firsts { (w : World O.Op O.Reply) (n : ℕ) (c : Command O.Op) →
        IsWorld O.rules w → Performs w n c → TellsFirsts O.rules w n c }
    ensures counts { (w : World O.Op O.Reply) (n : ℕ) (c : Command O.Op) →
        IsWorld O.rules w → Performs w n c → CountsFirsts O.rules w n c }
{
    ballot_laws();
    filter_remembers::<O::Op>();
}
