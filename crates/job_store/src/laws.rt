ghost use Rattle.std.specs.Prelude.{◌≡◌, ◌↔◌, ℕ, Bool, true, List, Some, IfSome, IfNone};
ghost use Rattle.object.specs.Lists.{In};
ghost use Rattle.job_store.specs.Entries.{Rising};
ghost use Rattle.job_store.specs.Least.{IsLeast, NonePasses, least};
ghost use Rattle.job_store.specs.LookUps.{is_among};

/// What `least` finds passes the test, and of what passes nothing has a smaller pair of number and key. It finds
/// nothing only where nothing passes. Where no key stands twice, nothing else is least.
pub fn least_is_least<X>()
    ensures found { (test : ℕ × X → Bool) (by : X → ℕ) (es : List (ℕ × X))
        → IfSome (least test by es) (IsLeast test by es) }
    ensures none { (test : ℕ × X → Bool) (by : X → ℕ) (es : List (ℕ × X))
        → IfNone (least test by es) (NonePasses test es) }
    ensures only { (test : ℕ × X → Bool) (by : X → ℕ) (es : List (ℕ × X)) (lo hi : ℕ) (e : ℕ × X)
        → Rising lo hi es → IsLeast test by es e → least test by es ≡ Some e }
{}

/// A name is among some names exactly where it is one of them.
pub fn among_is_member()
    ensures { (tube : List ℕ) (tubes : List (List ℕ)) → (is_among tube tubes ≡ true)
        ↔ In tube tubes }
{}
