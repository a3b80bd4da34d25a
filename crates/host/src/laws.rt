ghost use Rattle.std.specs.Prelude.{◌≡◌, ◌≢◌, ◌≤◌, ◌+◌, ◌*◌, ◌-◌, ◌++◌, ℕ, max, true, false, List, [], ◌∷◌, length, take};
ghost use Rattle.object.specs.Legal.{IsLegal};
ghost use Rattle.object.specs.Lists.{In};
ghost use Rattle.object.specs.OnceOnly.{Filtered, is_later};
ghost use Rattle.object.specs.declared.command.Command.{Command};
ghost use Rattle.ballot.specs.Members.{is_member};
ghost use Rattle.ballot.specs.declared.letter.Letter.{Letter};
ghost use Rattle.node.specs.declared.deed.Deed.{Deed};
ghost use Rattle.node.specs.declared.deed.Deed.TheVariants.{Request};
ghost use Rattle.agreement.specs.Runs.{most_events};
ghost use Rattle.cluster.specs.CatchingUp.{caught_up};
ghost use Rattle.cluster.specs.Clusters.{Hosts, new_hosts, with_at, with_handed, host_acted, total_events};
ghost use Rattle.cluster.specs.Envelopes.{Envelope};
ghost use Rattle.cluster.specs.Hosts.{host_turn, forgotten_host};
ghost use Rattle.cluster.specs.Steps.{AreHosts, IsInternal};
ghost use Rattle.cluster.specs.Storing.{Stored, IsWrittenAnew, stored_after, booted};
ghost use Rattle.host.specs.CatchingUp.{MayCatchUp, caught_up_view};
ghost use Rattle.host.specs.Forgetting.{base_within};
ghost use Rattle.host.specs.Hearing.{ReadsEnvelope, VotesOn};
ghost use Rattle.host.specs.Receiving.{AwaitsVote};
ghost use Rattle.host.specs.Steps.{IsHostAt, CountEvents, ChangesOnly, StepsTo, BecomesBySteps};
ghost use Rattle.host.specs.Storing.{IsAsGood, stored_from, stored_on, back_view};
ghost use Rattle.host.specs.Views.{HostView, new_view, acted_view, forgotten_view};
ghost use Rattle.host.specs.declared.receipt.Receipt.{Receipt};
ghost use Rattle.host.specs.declared.receipt.Receipt.TheVariants.{Unfit};
ghost use Rattle.object.specs.ListLaws.{Each};

use ballot::ballot_laws;
use cluster::{every_cluster, hosts_alone};
use object::Object;

/// A new host is one of new hosts (`opens`). A session's command is handed in at the host that owns it, which is a step
/// of the cluster, and stays as it is (`hands_in`). A step at one host changes no other (`others`).
pub fn hosts_stay<O: Object>()
    ensures opens { (members : List ℕ) (n : ℕ) → is_member members n ≡ true →
        IsHostAt (new_view O.rules members n) n (new_hosts O.rules members) }
    ensures hands_in { (owner : ℕ → ℕ) (h : HostView O.Op O) (n : ℕ) (c : Command O.Op)
        (k : Hosts O.Op O O.Reply) →
        IsHostAt h n k → owner c.key.session ≡ n →
        ((d : Command O.Op) → In d (k.handed n) → d.key ≡ c.key → d ≡ c) →
        StepsTo O.rules owner n h k (record k { handed = with_handed k.handed n c }) }
    ensures others { (h : HostView O.Op O) (n m : ℕ) (k j : Hosts O.Op O O.Reply) →
        IsHostAt h m k → m ≢ n → ChangesOnly n k j → IsHostAt h m j }
{}

/// Each call of a host of a cluster is a step of the cluster (`ClusterStep`), or none, and it is that host afterwards.
/// It is asked for what was handed in (`asks`), where its filter doesn't know that, and else does nothing (`known`); it
/// does something by itself (`acts`), reads an envelope (`reads`), or forgets (`forgets`), which it does within what it
/// has performed (`within`). To vote is a step for each letter that was put aside, and whose record is kept (`votes`). So
/// of hosts of which each was made new, and then did such calls, all holds that is proved of a cluster.
pub fn calls_are_steps<O: Object>()
    ensures asks { (owner : ℕ → ℕ) (h : HostView O.Op O) (n m : ℕ) (c : Command O.Op)
        (k : Hosts O.Op O O.Reply) →
        IsHostAt h n k → In c (k.handed m) → is_later c.key h.shown.holding.object.latest ≡ true →
        StepsTo O.rules owner n (acted_view O.rules h (Request c)) k
        (host_acted O.rules k n (Request c)) }
    ensures known { (h : HostView O.Op O) (c : Command O.Op) →
        is_later c.key h.shown.holding.object.latest ≡ false →
        (acted_view O.rules h (Request c) ≡ h)
        × (host_turn O.rules h.shown (Request c)
        ≡ record { state = h.shown.holding; sent = []; answers = [] }) }
    ensures acts { (owner : ℕ → ℕ) (h : HostView O.Op O) (n : ℕ) (d : Deed O.Op)
        (k : Hosts O.Op O O.Reply) →
        IsHostAt h n k → IsInternal d →
        StepsTo O.rules owner n (acted_view O.rules h d) k (host_acted O.rules k n d) }
    ensures reads { (owner : ℕ → ℕ) (members : List ℕ) (r : Receipt) (h z : HostView O.Op O)
        (n : ℕ) (p : Envelope (Command O.Op)) (before now : List (Letter (Command O.Op)))
        (k : Hosts O.Op O O.Reply) →
        AreHosts O.rules owner members k → IsHostAt h n k → In p k.envelopes →
        ReadsEnvelope r h p z before now →
        (b : BecomesBySteps O.rules owner members h.shown.base n z before now k)
        × (b.hosts.stored n ≡ k.stored n) }
    ensures votes { (owner : ℕ → ℕ) (members : List ℕ) (upto : ℕ) (h z : HostView O.Op O) (n : ℕ)
        (before now : List (Letter (Command O.Op))) (k : Hosts O.Op O O.Reply) →
        AreHosts O.rules owner members k → IsHostAt h n k → VotesOn upto h before z now →
        (b : BecomesBySteps O.rules owner members h.shown.base n z before now k)
        × (voted : List (Envelope (Command O.Op))) × (h.aside ≡ voted ++ z.aside)
        × (b.hosts.stored n ≡ stored_on (k.stored n) voted)
        × (z.voted ≡ h.voted + length voted) × (z.voted ≤ max h.voted upto) }
    ensures within { (h : HostView O.Op O) (base : ℕ) →
        base_within base h ≤ h.shown.holding.state.replica.slot_out }
    ensures forgets { (owner : ℕ → ℕ) (h : HostView O.Op O) (n base : ℕ)
        (k : Hosts O.Op O O.Reply) →
        IsHostAt h n k → h.shown.base ≤ base → base ≤ h.shown.holding.state.replica.slot_out →
        StepsTo O.rules owner n (forgotten_view base h) k
        (record k { host = with_at k.host n (forgotten_host base (k.host n)) }) }
{}

/// What a host hands on, takes over and stores, among the hosts of a cluster. It hands on its object and the slot that
/// it has come to, which is a step (`hands_on`); to take that over is one, too (`catches_up`), and to store anew what it
/// has stored (`rewrites`), as what is left of it from a higher base on (`anew`). What is as good stays so as it hears a
/// record more (`good`), and as both forget, whatever records are behind (`left`). A process that ends leaves behind
/// what it has stored: what asked for a vote and was received, and the first few of what still lies aside. A host that
/// comes back with this, or with what is as good, and with a snapshot, is that of its node again (`comes_back`): so
/// whenever a process ends, letters are lost, and a node restarts.
pub fn hosts_come_back<O: Object>()
    ensures hands_on { (owner : ℕ → ℕ) (h : HostView O.Op O) (n : ℕ) (k : Hosts O.Op O O.Reply) →
        IsHostAt h n k →
        StepsTo O.rules owner n h k (record k {
          snapshots = k.snapshots
              ++ ((h.shown.holding.state.replica.slot_out, h.shown.holding.object) ∷ []);
        }) }
    ensures catches_up { (owner : ℕ → ℕ) (h : HostView O.Op O) (n slot : ℕ)
        (object : Filtered O) (k : Hosts O.Op O O.Reply) →
        IsHostAt h n k → In (slot, object) k.snapshots → MayCatchUp slot object h →
        StepsTo O.rules owner n (caught_up_view slot object h) k (record k {
          host = with_at k.host n (caught_up slot object (k.host n));
          taken = with_at k.taken n (k.taken n
              + 2 * (slot - (k.host n).holding.state.replica.slot_out));
        }) }
    ensures rewrites { (owner : ℕ → ℕ) (h : HostView O.Op O) (n base : ℕ) (anew : Stored O.Op)
        (k : Hosts O.Op O O.Reply) →
        IsHostAt h n k → (k.stored n).base ≤ base → base ≤ max (k.stored n).base h.shown.base →
        IsWrittenAnew base (k.stored n) anew →
        StepsTo O.rules owner n h k (record k { stored = with_at k.stored n anew }) }
    ensures anew { (d : Stored O.Op) (base : ℕ) → d.base ≤ base →
        IsWrittenAnew base d (stored_from base d) }
    ensures left { (d e : Stored O.Op) (base : ℕ) (ps : List (Envelope (Command O.Op))) →
        IsAsGood (stored_on d ps) e → d.base ≤ base →
        IsAsGood (stored_on (stored_from base d) ps) (stored_from base e) }
    ensures good { (d e f : Stored O.Op) (p : Envelope (Command O.Op)) →
        IsAsGood d e → IsAsGood (stored_after e p.letter.body) f →
        IsAsGood (stored_after d p.letter.body) f }
    ensures comes_back { (owner : ℕ → ℕ) (members : List ℕ) (h : HostView O.Op O)
        (n count slot events : ℕ) (anew : Stored O.Op) (object : Filtered O)
        (k : Hosts O.Op O O.Reply) →
        AreHosts O.rules owner members k → IsHostAt h n k →
        Each (AwaitsVote n h.shown.base) h.aside →
        IsAsGood (stored_on (k.stored n) (take count h.aside)) anew →
        In (slot, object) k.snapshots → anew.base ≤ slot → h.taken + count ≤ events →
        (b : BecomesBySteps O.rules owner members slot n
        (back_view k.members n anew slot object events) [] [] k)
        × IsAsGood (b.hosts.stored n) (booted anew) }
{
    ballot_laws();
}

/// Hosts that count their events have few enough of them, where they are seven at most (`few`): with nothing else to
/// assume there is one order that is legal for what their clients saw, with what the object promises (`legal`). A host
/// always is within what it may have (`Host::events`).
pub fn counted_hosts<O: Object>()
    ensures few { (k : Hosts O.Op O O.Reply) →
        length k.members ≤ 7 → CountEvents k → total_events k ≤ most_events }
    ensures legal { (owner : ℕ → ℕ) (members : List ℕ) (k : Hosts O.Op O O.Reply) →
        AreHosts O.rules owner members k → length k.members ≤ 7 → CountEvents k →
        (order : List (Command O.Op)) × IsLegal O.rules k.happenings order × O.promise order }
{
    every_cluster::<O>();
}

/// What is on its way between the hosts of a cluster is never unfit: where a host says so, it was not sent there.
pub fn letters_fit<O: Object>()
    ensures { (owner : ℕ → ℕ) (members : List ℕ) (h z : HostView O.Op O) (n : ℕ)
        (p : Envelope (Command O.Op)) (before now : List (Letter (Command O.Op)))
        (k : Hosts O.Op O O.Reply) →
        AreHosts O.rules owner members k → total_events k ≤ most_events →
        IsHostAt h n k → In p k.envelopes → ReadsEnvelope Unfit h p z before now → ⊥ }
{
    hosts_alone::<O>();
    every_cluster::<O>();
}
