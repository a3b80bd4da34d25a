ghost use Rattle.std.specs.Prelude.{◌≡◌, ℕ, List};
ghost use Rattle.tube_store.specs.declared.tube_counts.TubeCounts.{TubeCounts};
ghost use Rattle.tube_store.specs.declared.tube_mark.TubeMark.{TubeMark};
ghost use Rattle.tube_store.specs.TubeCounts.{no_counts, counts_at, after_tube_mark, marked_tube, without_tube};

/// A mark is of its tube alone, and to forget a tube is, too.
pub fn a_mark_is_of_one_tube()
    ensures marked { (mark : TubeMark) (tube : List ℕ) (es : List (List ℕ × TubeCounts))
        → counts_at tube (marked_tube mark tube es) ≡ after_tube_mark mark (counts_at tube es) }
    ensures others_marked { (mark : TubeMark) (tube other : List ℕ) (es : List (List ℕ × TubeCounts))
        → (other ≡ tube → ⊥) → counts_at other (marked_tube mark tube es) ≡ counts_at other es }
    ensures forgotten { (tube : List ℕ) (es : List (List ℕ × TubeCounts))
        → counts_at tube (without_tube tube es) ≡ no_counts }
    ensures others_stay { (tube other : List ℕ) (es : List (List ℕ × TubeCounts))
        → (other ≡ tube → ⊥) → counts_at other (without_tube tube es) ≡ counts_at other es }
{}
