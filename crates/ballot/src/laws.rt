ghost use Rattle.std.specs.Prelude.{◌≡◌, ℕ, List, Option, Bool, true, false, ◌⊎◌};
ghost use Rattle.std.specs.Ordering.{partial_lt};
ghost use Rattle.ballot.specs.Ballots.{Numbers, is_below, is_promise_below, is_same};
ghost use Rattle.ballot.specs.BallotLaws.{BallotLaws};
ghost use Rattle.ballot.specs.Members.{is_member, has, is_majority};

use crate::ballot::Ballot;

/// The order of ballots is a total order, and a ballot is determined by its three numbers.
pub fn ballot_order()
    ensures itself { (a : Numbers) → is_below a a ≡ false }
    ensures through { (a b c : Numbers) → is_below a b ≡ true → is_below b c ≡ true →
        is_below a c ≡ true }
    ensures total { (a b : Numbers) → (is_below a b ≡ true)
        ⊎ ((a ≡ b) ⊎ (is_below b a ≡ true)) }
    ensures same { (a b : Numbers) → is_same a b ≡ true → a ≡ b }
{}

/// `<` of ballots is their order, and of what was promised too, where `None` comes before every ballot.
pub fn less_is_below()
    ensures ballots { (a b : Numbers) →
        partial_lt ⟦<Ballot as PartialOrd>⟧.partial_cmp a b ≡ is_below a b }
    ensures promises { (a b : Option Numbers) →
        partial_lt ⟦<Option<Ballot> as PartialOrd>⟧.partial_cmp a b ≡ is_promise_below a b }
{}

/// Any two majorities of the same members share a member.
pub fn majorities_share_a_member()
    ensures { (weights : List ℕ) (a b : List Bool) → is_majority weights a ≡ true →
        is_majority weights b ≡ true → (m : ℕ) × (has a m ≡ true) × (has b m ≡ true)
        × (is_member weights m ≡ true) }
{}

/// What is promised of the order of ballots and of majorities, in one place.
pub fn ballot_laws()
    ensures { BallotLaws }
{
    ballot_order();
    majorities_share_a_member();
}
