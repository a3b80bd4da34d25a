ghost use Rattle.std.specs.Prelude.{◌≡◌, ◌∷◌, [], ℕ, List, codes};
ghost use Rattle.options.specs.declared.words.Action.{Action};
ghost use Rattle.options.specs.declared.words.Action.TheVariants.{Version};
ghost use Rattle.options.specs.Words.{AreWrong, AskForVersion, IsAskedBy, NameVersion};

/// Words that name the version first call for it, and for nothing else. Behind `serve` it is wrong.
pub fn version_alone()
    ensures asked { (words : List (List ℕ)) → NameVersion words → AskForVersion words }
    ensures alone { (words : List (List ℕ)) (action : Action) → NameVersion words →
        IsAskedBy words action → action ≡ Version }
    ensures first { (program : List ℕ) →
        AreWrong (program ∷ codes "serve" ∷ codes "--version" ∷ []) }
{}
