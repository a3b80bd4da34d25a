ghost use Rattle.std.specs.Prelude.{◌≡◌, ◌<◌, ◌≤◌, ℕ, List, Some, true};
ghost use Rattle.std.specs.FinMap.{get};
ghost use Rattle.object.specs.declared.command.Command.{Command};
ghost use Rattle.ballot.specs.Members.{is_member};
ghost use Rattle.ballot.specs.declared.letter.Letter.{Letter};
ghost use Rattle.ballot.specs.declared.letter.LetterBody.{LetterBody};
ghost use Rattle.node.specs.declared.deed.Deed.{Deed};
ghost use Rattle.network.specs.Networks.{node_of, mail_of, front};
ghost use Rattle.agreement.specs.Events.{event_of};
ghost use Rattle.agreement.specs.Runs.{IsWorld};
ghost use Rattle.agreement.specs.Worlds.{World, opening};
ghost use Rattle.agreement.specs.declared.event.Event.TheVariants.{Submit};
ghost use Rattle.ballot.specs.Rests.{rest_of_body};
ghost use Rattle.client_table.specs.declared.client.Client.{Client};
ghost use Rattle.forgetting_hall.specs.Clients.{IsNextOf, IsLastOf};
ghost use Rattle.forgetting_hall.specs.Rests.{HallRest, ShowsWorld, FollowsEvent, FollowsLetterOf, IsGoingOn, IsReceivedRest, IsReplyInOrder, new_rest, acted_rest, handed_in, done_rest, lost_rest, repeated_rest, forgotten_rest, opened_rest, opened_as, let_go_rest};
ghost use Rattle.forgetting_hall.specs.WorldFacts.{WorldFacts};

use crate::laws::clusters_rest;
use agreement::every_world;
use object::Object;

/// A hall that forgets the slots below a base, and of what happened keeps each session's last command with its reply.
/// It shows a world that events lead to, and goes on to: at first the opening one (`opening`); a session's next command
/// that is handed in, or its last one again, is that event (`hands_in`, `hands_again`), as is what a node does by
/// itself, but for a restart (`acts`), and a letter of which something is left (`receives`). A letter that is lost or
/// repeated is no event (`loses`, `repeats`), nor is it that a session is opened or let go of (`opens`, `opens_as`,
/// `lets_go`), or that slots which every replica has performed are forgotten (`forgets`). And the reply that a client
/// has is that of one order, for which all that happened is legal, and which keeps what the object promises
/// (`replies`). Of a restart nothing is said: such a node would need what the others forgot.
pub fn halls_rest<O: Object>()
    ensures opening { (members : List ℕ) → ShowsWorld O.rules (new_rest O.rules members) (opening members) }
    ensures hands_in { (h : HallRest O.Op O O.Reply) (w : World O.Op O.Reply) (n : ℕ) (c : Command O.Op) →
        IsWorld O.rules w → ShowsWorld O.rules h w → is_member h.network.members n ≡ true →
        IsNextOf h.summary c → FollowsEvent O.rules w (Submit n c) (handed_in O.rules h n c) }
    ensures hands_again { (h : HallRest O.Op O O.Reply) (w : World O.Op O.Reply) (n : ℕ) (c : Command O.Op) →
        IsWorld O.rules w → ShowsWorld O.rules h w → is_member h.network.members n ≡ true →
        IsLastOf h.summary c →
        FollowsEvent O.rules w (Submit n c) (acted_rest O.rules h n (Deed.Request c)) }
    ensures acts { (h : HallRest O.Op O O.Reply) (w : World O.Op O.Reply) (n : ℕ) (d : Deed O.Op) →
        IsWorld O.rules w → ShowsWorld O.rules h w → is_member h.network.members n ≡ true →
        IsGoingOn d → FollowsEvent O.rules w (event_of n d) (done_rest O.rules h n d) }
    ensures receives { (h z : HallRest O.Op O O.Reply) (w : World O.Op O.Reply) (n : ℕ)
        (l : Letter (Command O.Op)) (left : LetterBody (Command O.Op)) →
        IsWorld O.rules w → ShowsWorld O.rules h w → is_member h.network.members n ≡ true →
        front (mail_of h.network n) ≡ Some l → rest_of_body h.base l.body ≡ Some left →
        IsReceivedRest h n l left z → FollowsLetterOf O.rules w h.base n l left z }
    ensures loses { (h : HallRest O.Op O O.Reply) (w : World O.Op O.Reply) (n : ℕ) →
        IsWorld O.rules w → ShowsWorld O.rules h w → ShowsWorld O.rules (lost_rest h n) w }
    ensures repeats { (h : HallRest O.Op O O.Reply) (w : World O.Op O.Reply) (n : ℕ) (l : Letter (Command O.Op)) →
        IsWorld O.rules w → ShowsWorld O.rules h w → front (mail_of h.network n) ≡ Some l →
        ShowsWorld O.rules (repeated_rest h n l) w }
    ensures forgets { (h : HallRest O.Op O O.Reply) (w : World O.Op O.Reply) (base : ℕ) →
        IsWorld O.rules w → ShowsWorld O.rules h w → h.base ≤ base →
        ((n : ℕ) → is_member h.network.members n ≡ true → base ≤ (node_of h.network n).replica.slot_out) →
        ShowsWorld O.rules (forgotten_rest h base) w }
    ensures opens { (h : HallRest O.Op O O.Reply) (w : World O.Op O.Reply) →
        IsWorld O.rules w → ShowsWorld O.rules h w → ShowsWorld O.rules (opened_rest h) w }
    ensures opens_as { (h : HallRest O.Op O O.Reply) (w : World O.Op O.Reply) (session : ℕ) →
        IsWorld O.rules w → ShowsWorld O.rules h w → h.opened < session →
        ShowsWorld O.rules (opened_as h session) w }
    ensures lets_go { (h : HallRest O.Op O O.Reply) (w : World O.Op O.Reply) (session : ℕ) →
        IsWorld O.rules w → ShowsWorld O.rules h w → ShowsWorld O.rules (let_go_rest h session) w }
    ensures replies { (h : HallRest O.Op O O.Reply) (w : World O.Op O.Reply) (session : ℕ)
        (client : Client O.Op O.Reply) (c : Command O.Op) (reply : O.Reply) →
        IsWorld O.rules w → ShowsWorld O.rules h w → get h.summary.clients session ≡ Some client →
        client.last ≡ Some c → client.reply ≡ Some reply → IsReplyInOrder O.rules O.promise w c reply }
{
    every_world::<O>();
    clusters_rest::<O>();
    facts_of_worlds::<O>();
    O::keeps_promise();
}

// What is so of every world.
fn facts_of_worlds<O: Object>()
    ensures { WorldFacts O.rules }
{
    every_world::<O>();
    clusters_rest::<O>();
}
