ghost use Rattle.std.specs.Prelude.{◌≡◌, ◌≤◌, ◌+◌, ◌*◌, ◌-◌, ◌^◌, ℕ, length, List, [], Some, true};
ghost use Rattle.std.specs.FinMap.{get};
ghost use Rattle.object.specs.Legal.{IsLegal};
ghost use Rattle.object.specs.OnceOnly.{Filtered};
ghost use Rattle.object.specs.declared.command.Command.{Command};
ghost use Rattle.ballot.specs.Members.{is_member};
ghost use Rattle.ballot.specs.declared.letter.Letter.{Letter};
ghost use Rattle.ballot.specs.declared.letter.LetterBody.{LetterBody};
ghost use Rattle.node.specs.Nodes.{NodeState};
ghost use Rattle.node.specs.Receiving.{IsFit, ShowsReceived};
ghost use Rattle.node.specs.declared.deed.Deed.{Deed};
ghost use Rattle.agreement.specs.Nodes.{new_cluster, node};
ghost use Rattle.agreement.specs.OneOrder.{GoesOnFrom};
ghost use Rattle.agreement.specs.Runs.{IsWorld, InEvery, AfterEach, most_events};
ghost use Rattle.agreement.specs.Steps.{Step};
ghost use Rattle.agreement.specs.Worlds.{World};
ghost use Rattle.agreement.specs.declared.event.Event.{Event};
ghost use Rattle.cluster.specs.Acting.{HostActs, HostReceives};
ghost use Rattle.cluster.specs.Asking.{AsksForLastSubmitted, AsksForUnknown};
ghost use Rattle.cluster.specs.CatchingUp.{CatchesUp, HasProposedInVain, caught_up};
ghost use Rattle.cluster.specs.Clusters.{Hosts, total_events};
ghost use Rattle.cluster.specs.ComingBack.{ComesBack};
ghost use Rattle.cluster.specs.Elsewhere.{IsElsewhere};
ghost use Rattle.cluster.specs.Envelopes.{Envelope, IsEnvelopeOf, IsReadAs};
ghost use Rattle.cluster.specs.Hosts.{HostState, ShowsHost, new_host, forgotten_host};
ghost use Rattle.cluster.specs.Showing.{ShowHosts};
ghost use Rattle.cluster.specs.Snapshots.{IsSnapshot, IsDecidedToAll};
ghost use Rattle.cluster.specs.Steps.{AreHosts, ClusterStep};
ghost use Rattle.cluster.specs.Storing.{Stored, IsStored, IsWrittenAnew};

use agreement::every_world;
use ballot::ballot_laws;
use object::{Object, filter_remembers};

/// What a host that shows a node of a world proves of itself alone. At first it does (`opening`). What it does by
/// itself is the world's event, where it asks for what its filter lets through (`acts`), or for the last command of a
/// session (`asks_last`); so is what it receives of an envelope that it may read (`receives`), which fits it (`fits`);
/// and where it forgets more of what it performed, there is no event (`forgets`). Events at other nodes change nothing
/// for it (`others`), nor of what it has stored (`stored`), which may be written anew from a higher base on (`compacts`); and
/// an envelope of a world is one of each later world (`envelopes`).
pub fn hosts_alone<O: Object>()
    ensures opening { (members : List ℕ) (n : ℕ) → is_member members n ≡ true →
        ShowsHost O.rules (new_host O.rules members n) n (new_cluster members) }
    ensures acts { (s : HostState O.Op O) (n : ℕ) (d : Deed O.Op) (w : World O.Op O.Reply) →
        IsWorld O.rules w → ShowsHost O.rules s n w.cluster →
        AsksForUnknown s d w.happenings.submitted → HostActs O.rules s n d w }
    ensures asks_last { (s : HostState O.Op O) (n : ℕ) (d : Deed O.Op) (w : World O.Op O.Reply) →
        IsWorld O.rules w → ShowsHost O.rules s n w.cluster →
        AsksForLastSubmitted d w.happenings.submitted → HostActs O.rules s n d w }
    ensures receives { (s : HostState O.Op O) (n : ℕ) (p : Envelope (Command O.Op))
        (left : LetterBody (Command O.Op)) (new : NodeState (Command O.Op))
        (sent : List (Letter (Command O.Op))) (w : World O.Op O.Reply) →
        IsWorld O.rules w → ShowsHost O.rules s n w.cluster →
        IsEnvelopeOf p w.cluster → IsReadAs p n s.base left →
        ShowsReceived p.letter.«from» s.holding.state left new [] sent →
        HostReceives O.rules s n left new sent w }
    ensures fits { (s : HostState O.Op O) (n : ℕ) (p : Envelope (Command O.Op))
        (left : LetterBody (Command O.Op)) (w : World O.Op O.Reply) →
        IsWorld O.rules w → ShowsHost O.rules s n w.cluster →
        IsEnvelopeOf p w.cluster → IsReadAs p n s.base left → IsFit s.holding.state left }
    ensures others { (s : HostState O.Op O) (m : ℕ) (w v : World O.Op O.Reply) (e : Event O.Op) →
        IsWorld O.rules w → Step O.rules w e v → IsElsewhere m w e →
        ShowsHost O.rules s m w.cluster → ShowsHost O.rules s m v.cluster }
    ensures envelopes { (p : Envelope (Command O.Op)) →
        AfterEach O.rules (λ w v. IsEnvelopeOf p w.cluster → IsEnvelopeOf p v.cluster) }
    ensures stored { (d : Stored O.Op) (m : ℕ) (w v : World O.Op O.Reply) (e : Event O.Op) →
        IsWorld O.rules w → Step O.rules w e v → IsElsewhere m w e →
        IsStored d m w.cluster → IsStored d m v.cluster }
    ensures compacts { (d anew : Stored O.Op) (n base : ℕ) (w : World O.Op O.Reply) →
        IsStored d n w.cluster → d.base ≤ base → IsWrittenAnew base d anew →
        IsStored anew n w.cluster }
    ensures forgets { (s : HostState O.Op O) (n base : ℕ) (w : World O.Op O.Reply) →
        ShowsHost O.rules s n w.cluster → s.base ≤ base →
        base ≤ s.holding.state.replica.slot_out →
        ShowsHost O.rules (forgotten_host base s) n w.cluster }
{
    ballot_laws();
    filter_remembers::<O::Op>();
}

/// What a replica knows to be decided was told to each member (`decided`). A host may hand on the object and the slot
/// that it has come to (`hands_on`), also later (`stays`). One that takes this over shows a world in which its node was
/// told the decisions before the slot and performed them, and nothing is answered that wasn't before; what it has
/// proposed for these slots, it is asked for again, and none of it may be what the object obeyed (`catches_up`). So
/// does one that comes back with what it stored, whose boot is one more then (`comes_back`).
pub fn snapshots<O: Object>()
    ensures decided { InEvery O.rules (λ w. (n s : ℕ) (c : Command O.Op) →
        get (node w.cluster n).replica.decisions s ≡ Some c → IsDecidedToAll w.cluster s c) }
    ensures hands_on { (s : HostState O.Op O) (n : ℕ) (w : World O.Op O.Reply) →
        IsWorld O.rules w → ShowsHost O.rules s n w.cluster →
        IsSnapshot O.rules s.holding.state.replica.slot_out s.holding.object w }
    ensures stays { (slot : ℕ) (object : Filtered O) →
        AfterEach O.rules (λ w v.
        IsSnapshot O.rules slot object w → IsSnapshot O.rules slot object v) }
    ensures catches_up { (s : HostState O.Op O) (n slot : ℕ) (object : Filtered O)
        (w : World O.Op O.Reply) →
        IsWorld O.rules w → ShowsHost O.rules s n w.cluster →
        IsSnapshot O.rules slot object w → s.holding.state.replica.slot_out ≤ slot →
        HasProposedInVain slot object s.holding.state.replica →
        w.taken + 2 * (slot - s.holding.state.replica.slot_out) ≤ most_events →
        CatchesUp O.rules (caught_up slot object s) n w }
    ensures comes_back { (n : ℕ) (d : Stored O.Op) (slot : ℕ) (object : Filtered O)
        (w : World O.Op O.Reply) →
        IsWorld O.rules w → is_member w.cluster.members n ≡ true →
        IsStored d n w.cluster → d.base ≤ slot → IsSnapshot O.rules slot object w →
        w.taken + 1 + 2 * slot ≤ most_events → ComesBack O.rules n d slot object w }
{
    ballot_laws();
    filter_remembers::<O::Op>();
}

/// Hosts together (`AreHosts`) show one world of their members, in which all happened that their clients saw (`shown`),
/// and which goes on, with its order, with whatever happens at a host (`goes_on`); so there is one order for which that
/// is legal, and of which holds what the object promises (`legal`). There are few enough events where each host counts
/// its own (`few`).
pub fn every_cluster<O: Object>()
    ensures shown { (owner : ℕ → ℕ) (members : List ℕ) (k : Hosts O.Op O O.Reply) →
        AreHosts O.rules owner members k → total_events k ≤ most_events →
        (w : World O.Op O.Reply) × ShowHosts O.rules owner k w }
    ensures goes_on { (owner : ℕ → ℕ) (k z : Hosts O.Op O O.Reply) (w : World O.Op O.Reply) →
        ShowHosts O.rules owner k w → ClusterStep O.rules owner k z → total_events z ≤ most_events →
        (v : World O.Op O.Reply) × ShowHosts O.rules owner z v × GoesOnFrom w v }
    ensures legal { (owner : ℕ → ℕ) (members : List ℕ) (k : Hosts O.Op O O.Reply) →
        AreHosts O.rules owner members k → total_events k ≤ most_events →
        (order : List (Command O.Op)) × IsLegal O.rules k.happenings order × O.promise order }
    ensures few { (k : Hosts O.Op O O.Reply) → length k.members ≤ 7 →
        ((n : ℕ) → k.taken n ≤ 2 ^ 45) → total_events k ≤ most_events }
{
    every_world::<O>();
    ballot_laws();
    filter_remembers::<O::Op>();
    O::keeps_promise();
}
