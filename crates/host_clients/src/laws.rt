ghost use Rattle.std.specs.Prelude.{◌≡◌, ℕ, List};
ghost use Rattle.object.specs.Lists.{In};
ghost use Rattle.object.specs.declared.command.Act.{Act};
ghost use Rattle.object.specs.declared.command.Answer.{Answer};
ghost use Rattle.object.specs.declared.command.Command.{Command};
ghost use Rattle.object.specs.declared.command.Key.{Key};
ghost use Rattle.cluster.specs.Clusters.{Hosts, with_handed};
ghost use Rattle.host_clients.specs.Clients.{ClientsState, OpensAs, HandsInNext, HearsAnswer, EndsEarlier, Frees, no_clients, seat_session};
ghost use Rattle.host_clients.specs.Owning.{AreClientsOf, HasOnlyEndsLast};

use object::Object;

/// What a host's clients hand in has a key of its own, and is of a session that the host owns (`hands_in`), which is what
/// a step of the cluster wants; so a key has one command, also where a session is used again. They stay its clients as
/// sessions open (`opens`) and end (`frees`), as they hear what was answered anywhere (`hears`), and whatever else
/// happens (`goes_on`). A new process has them with sessions of which nothing was handed in (`begins`), and may end those
/// of an earlier one, as often as it likes: that is one command each time (`ends_earlier`).
pub fn clients_of_a_host<O: Object>()
    ensures begins { (owner : ℕ → ℕ) (n first : ℕ) (k : Hosts O.Op O O.Reply) →
        ((place : ℕ) → owner (seat_session first place) ≡ n) →
        ((c : Command O.Op) (place : ℕ) → In c (k.handed n) →
        c.key.session ≡ seat_session first place → ⊥) →
        HasOnlyEndsLast (k.handed n) →
        AreClientsOf owner (no_clients first) n k }
    ensures opens { (owner : ℕ → ℕ) (s z : ClientsState O.Op O.Reply) (n session : ℕ)
        (k : Hosts O.Op O O.Reply) →
        AreClientsOf owner s n k → OpensAs s session z → AreClientsOf owner z n k }
    ensures hands_in { (owner : ℕ → ℕ) (s z : ClientsState O.Op O.Reply) (n session : ℕ)
        (act : Act O.Op) (c : Command O.Op) (k : Hosts O.Op O O.Reply) →
        AreClientsOf owner s n k → HandsInNext s session act c z →
        (owner c.key.session ≡ n)
        × ((d : Command O.Op) → In d (k.handed n) → d.key ≡ c.key → d ≡ c)
        × AreClientsOf owner z n (record k { handed = with_handed k.handed n c }) }
    ensures ends_earlier { (owner : ℕ → ℕ) (s : ClientsState O.Op O.Reply) (n session : ℕ)
        (c : Command O.Op) (k : Hosts O.Op O O.Reply) →
        AreClientsOf owner s n k → owner session ≡ n → EndsEarlier s session c →
        (owner c.key.session ≡ n)
        × ((d : Command O.Op) → In d (k.handed n) → d.key ≡ c.key → d ≡ c)
        × AreClientsOf owner s n (record k { handed = with_handed k.handed n c }) }
    ensures hears { (owner : ℕ → ℕ) (s z : ClientsState O.Op O.Reply) (n : ℕ)
        (answer : Answer O.Reply) (k : Hosts O.Op O O.Reply) →
        AreClientsOf owner s n k → In answer k.happenings.answers → HearsAnswer answer s z →
        AreClientsOf owner z n k }
    ensures frees { (owner : ℕ → ℕ) (s z : ClientsState O.Op O.Reply) (n : ℕ) (key : Key)
        (k : Hosts O.Op O O.Reply) →
        AreClientsOf owner s n k → Frees key s z → AreClientsOf owner z n k }
    ensures goes_on { (owner : ℕ → ℕ) (s : ClientsState O.Op O.Reply) (n : ℕ)
        (k j : Hosts O.Op O O.Reply) →
        AreClientsOf owner s n k → j.handed n ≡ k.handed n →
        ((a : Answer O.Reply) → In a k.happenings.answers → In a j.happenings.answers) →
        AreClientsOf owner s n j }
{}
