ghost use Rattle.std.specs.Prelude.{◌≡◌, ◌∷◌, [], List, true, false};
ghost use Rattle.std.specs.FinMap.{empty};
ghost use Rattle.object.specs.declared.command.Command.{Command};
ghost use Rattle.object.specs.OnceOnly.{LatestNumbers, Remembers, is_later, noted};

/// What a filter remembers, whatever commands it has seen: a new one has seen none; and of the commands seen so far
/// and one more it knows which are new, whether that one counted or was stale.
pub fn filter_remembers<Op>()
    ensures none { Remembers {Op = Op} empty [] }
    ensures done { (latest : LatestNumbers) (earlier : List (Command Op)) (c : Command Op) →
        Remembers latest earlier → is_later c.key latest ≡ true
        → Remembers (noted c.key latest) (c ∷ earlier) }
    ensures stale { (latest : LatestNumbers) (earlier : List (Command Op)) (c : Command Op) →
        Remembers latest earlier → is_later c.key latest ≡ false → Remembers latest (c ∷ earlier) }
{}
