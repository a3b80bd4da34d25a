ghost use Rattle.std.specs.Prelude.{◌≡◌, ℕ, List, true, false, not, ◌==◌};
ghost use Rattle.object.specs.Lists.{In};
ghost use Rattle.pause_store.specs.Pauses.{PauseState, is_paused, paused_for, at_second, tubes_over};

/// A pause is of its tube alone, and one of no seconds is none.
pub fn one_tube_is_paused()
    ensures its_own { (tube : List ℕ) (seconds : ℕ) (s : PauseState)
        → is_paused tube (paused_for tube seconds s).pauses ≡ not (seconds == 0) }
    ensures others { (tube other : List ℕ) (seconds : ℕ) (s : PauseState) → (other ≡ tube → ⊥)
        → is_paused other (paused_for tube seconds s).pauses ≡ is_paused other s.pauses }
{}

/// A tube that is paused is so after a second has come, or its pause is over by it.
pub fn a_pause_goes_on_or_is_over()
    ensures { (tube : List ℕ) (second : ℕ) (s : PauseState) → is_paused tube s.pauses ≡ true
        → is_paused tube (at_second second s).pauses ≡ false
        → In tube (tubes_over second s.pauses) }
{}
