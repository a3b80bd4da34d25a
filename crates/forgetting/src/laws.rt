ghost use Rattle.std.specs.Prelude.{◌≡◌, ◌<◌, ◌≤◌, ℕ, List, Some, None, if◌then◌else◌};
ghost use Rattle.std.specs.FinMap.{get};
ghost use Rattle.object.specs.declared.command.Command.{Command};
ghost use Rattle.object.specs.Commands.{same_commands};
ghost use Rattle.object.specs.Objects.{is_one};
ghost use Rattle.object.specs.Replays.{is_new};
ghost use Rattle.slot_log.specs.Histories.{history};
ghost use Rattle.forgetting.specs.Asking.{IsLastOfSession};
ghost use Rattle.node.specs.Holding.{Holding, outcome_held};
ghost use Rattle.forgetting.specs.Holding.{ShowsHeld, IsHeldTurn, AsksForLast, acted_held};
ghost use Rattle.ballot.specs.Ballots.{Numbers};
ghost use Rattle.ballot.specs.declared.pvalue.Pvalue.{Pvalue};
ghost use Rattle.ballot.specs.declared.letter.Letter.{Letter};
ghost use Rattle.ballot.specs.declared.letter.LetterBody.{LetterBody};
ghost use Rattle.acceptor.specs.Acceptors.{Acceptances, Keeps, after_p1a, after_p2a};
ghost use Rattle.acceptor.specs.Reports.{IsReport};
ghost use Rattle.leader.specs.Leaders.{Leading, preempted, woken, on_propose};
ghost use Rattle.leader.specs.Votes.{on_p2b};
ghost use Rattle.leader.specs.Promises.{on_p1b};
ghost use Rattle.ballot.specs.Slots.{Slots};
ghost use Rattle.slot_log.specs.Books.{SlotBook};
ghost use Rattle.slot_log.specs.Advances.{advanced};
ghost use Rattle.slot_log.specs.Decisions.{learnt, next_decided};
ghost use Rattle.slot_log.specs.Proposals.{next_proposal, proposed_next};
ghost use Rattle.slot_log.specs.Requests.{requested};
ghost use Rattle.node.specs.Nodes.{NodeState};
ghost use Rattle.node.specs.Deeds.{acted, outcome_of};
ghost use Rattle.node.specs.Receiving.{IsFit, Receives};
ghost use Rattle.node.specs.declared.deed.Deed.{Deed};
ghost use Rattle.ballot.specs.Rests.{pvalues_from, kept_from, rest_of_body};
ghost use Rattle.acceptor.specs.Rests.{rest_of_acceptor};
ghost use Rattle.leader.specs.Rests.{rest_of_leader, rest_of_done, StandInSlots};
ghost use Rattle.slot_log.specs.Rests.{rest_of_book, is_forgotten, IsPast};
ghost use Rattle.node.specs.Rests.{rest_of_node};
ghost use Rattle.forgetting.specs.RestLaws.{ReceivesWhole};

use object::{Object, filter_remembers};

/// Of an acceptor: its promise is as before (`p1a`), a pvalue from the base on is accepted (`p2a`), and the rest of what is
/// enough for a report is enough for its rest (`kept`).
pub fn acceptors_rest<O: Object>()
    ensures p1a { (base : ℕ) (a : Acceptances (Command O.Op)) (b : Numbers) →
        rest_of_acceptor base (after_p1a a b) ≡ after_p1a (rest_of_acceptor base a) b }
    ensures p2a { (base : ℕ) (a : Acceptances (Command O.Op)) (p : Pvalue (Command O.Op)) → base ≤ p.slot →
        rest_of_acceptor base (after_p2a a p) ≡ after_p2a (rest_of_acceptor base a) p }
    ensures kept { (base : ℕ) (all kept : Acceptances (Command O.Op)) → Keeps all kept →
        Keeps (rest_of_acceptor base all) (rest_of_acceptor base kept) }
{}

/// Of a leader: what a proposal (`proposal`), a greater ballot (`preempted`), a Wake (`woken`), a vote (`vote`) and a
/// promise (`promise`) make of it.
pub fn leaders_rest<O: Object>()
    ensures proposal { (base : ℕ) (l : Leading (Command O.Op)) (s : ℕ) (c : Command O.Op) → base ≤ s →
        rest_of_done base (on_propose l s c) ≡ on_propose (rest_of_leader base l) s c }
    ensures preempted { (base : ℕ) (l : Leading (Command O.Op)) (b : Numbers) →
        rest_of_leader base (preempted l b) ≡ preempted (rest_of_leader base l) b }
    ensures woken { (base : ℕ) (l : Leading (Command O.Op)) →
        rest_of_done base (woken l) ≡ woken (rest_of_leader base l) }
    ensures promise { (base : ℕ) (l : Leading (Command O.Op)) (m : ℕ) (b : Numbers)
        (fresh : List (Pvalue (Command O.Op))) (taken : Slots (Command O.Op)) →
        rest_of_done base (on_p1b l m b fresh taken)
        ≡ on_p1b (rest_of_leader base l) m b (pvalues_from base fresh) (kept_from base taken) }
{}

/// Of a replica's book: what is learnt, performed, proposed and asked for.
pub fn books_rest<O: Object>()
    ensures learnt { (base : ℕ) (book : SlotBook (Command O.Op)) (s : ℕ) (c : Command O.Op) → base ≤ s →
        rest_of_book base (learnt book s c) ≡ learnt (rest_of_book base book) s c }
    ensures next { (base : ℕ) (book : SlotBook (Command O.Op)) → base ≤ book.slot_out →
        next_decided (rest_of_book base book) ≡ next_decided book }
    ensures advanced { (base : ℕ) (book : SlotBook (Command O.Op)) → base ≤ book.slot_out →
        rest_of_book base (advanced (is_one O.rules) book) ≡ advanced (is_one O.rules) (rest_of_book base book) }
    ensures proposal { (base : ℕ) (book : SlotBook (Command O.Op)) → IsPast base book →
        next_proposal (rest_of_book base book) ≡ next_proposal book }
    ensures proposed { (base : ℕ) (book : SlotBook (Command O.Op)) → IsPast base book →
        rest_of_book base (proposed_next book) ≡ proposed_next (rest_of_book base book) }
    ensures requested { (base : ℕ) (book : SlotBook (Command O.Op)) (c : Command O.Op) →
        rest_of_book base (requested (is_one O.rules) book c) ≡
        (if is_forgotten (is_one O.rules) base book c
        then rest_of_book base book
        else requested (is_one O.rules) (rest_of_book base book) c) }
{}

/// Of a node: a letter that fits it fits its rest (`fit`); and where the rest has received the rest of a letter, the node
/// may receive the letter, and becomes and sends what this is the rest of (`letters`).
pub fn nodes_rest<O: Object>()
    ensures fit { (base : ℕ) (x : NodeState (Command O.Op)) (body kept : LetterBody (Command O.Op)) →
        rest_of_body base body ≡ Some kept → IsFit x body → IsFit (rest_of_node base x) kept }
    ensures letters { (base : ℕ) (members : List ℕ) (m n : ℕ) (x z : NodeState (Command O.Op))
        (body kept : LetterBody (Command O.Op)) (sent : List (Letter (Command O.Op))) →
        rest_of_body base body ≡ Some kept → Receives members m n (rest_of_node base x) kept z sent →
        ReceivesWhole base members m n x body z sent }
{}

/// A request for its session's last command is known to the rest of a book or to the object's filter, exactly where it is
/// known to the book: there it changes nothing (`asked`).
pub fn requests_rest<O: Object>()
    ensures asked { (base : ℕ) (book : SlotBook (Command O.Op)) (c : Command O.Op) →
        get book.decisions 0 ≡ None → base ≤ book.slot_out → IsLastOfSession c (history book) →
        rest_of_book base (requested (same_commands O.Op.eq) book c) ≡
        (if is_new c (history book)
        then requested (same_commands O.Op.eq) (rest_of_book base book) c
        else rest_of_book base book) }
{}

/// Of a node that holds its object, and shows the rest of another one: what it does by itself is the rest of what that one
/// does, with the same answers (`turn`) and the same outcome (`outcome`).
pub fn holders_rest<O: Object>()
    ensures turn { (base : ℕ) (members : List ℕ) (n : ℕ) (h : Holding O.Op O) (x : NodeState (Command O.Op)) (d : Deed O.Op) →
        ShowsHeld O.rules base h x → StandInSlots x.leader → IsPast base x.replica → 0 < x.replica.slot_out →
        get x.replica.decisions 0 ≡ None → AsksForLast x d →
        IsHeldTurn O.rules base (acted_held O.rules members n h d) (acted O.rules members n x d) }
    ensures outcome { (base : ℕ) (h : Holding O.Op O) (x : NodeState (Command O.Op)) (d : Deed O.Op) →
        ShowsHeld O.rules base h x → IsPast base x.replica → AsksForLast x d →
        outcome_held h d ≡ outcome_of x d }
{
    filter_remembers::<O::Op>();
}

/// A rest from a higher slot on is the rest of a rest (`node`); and from slot 0 on nothing is left out, of a node (`all`) or
/// of a letter (`letters`).
pub fn forgetting_more<O: Object>()
    ensures node { (low high : ℕ) (x : NodeState (Command O.Op)) → low ≤ high →
        rest_of_node high (rest_of_node low x) ≡ rest_of_node high x }
    ensures all { (x : NodeState (Command O.Op)) → rest_of_node 0 x ≡ x }
    ensures letters { (b : LetterBody (Command O.Op)) → rest_of_body 0 b ≡ Some b }
{}
