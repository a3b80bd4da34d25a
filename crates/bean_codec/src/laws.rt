ghost use Rattle.std.specs.Prelude.{◌≡◌, ◌++◌, ◌⊎◌, ℕ, List, Ok, Err};
ghost use Rattle.bean_codec.specs.declared.profile.Profile.{Profile};
ghost use Rattle.bean_codec.specs.declared.profile.Profile.TheVariants.{Plain, Extended};
ghost use Rattle.bean_codec.specs.declared.request.Request.{Request};
ghost use Rattle.bean_codec.specs.declared.request.Fault.TheVariants.{UnknownCommand};
ghost use Rattle.bean_codec.specs.Grammar.{Item, IsStatsLine, Spells, meaning};
ghost use Rattle.bean_codec.specs.Reads.{BeginsWith, BeginsWithNone};

/// No text spells two items, and none that spells an item begins another.
pub fn one_item()
    ensures { (profile : Profile) (a b x y : List ℕ) (i j : Item) → Spells profile a i →
        Spells profile b j → a ++ x ≡ b ++ y → (a ≡ b) × (i ≡ j) }
{}

/// A text begins with an item or with none.
pub fn front_item()
    ensures { (profile : Profile) (text : List ℕ) →
        ((found : Item × ℕ) × BeginsWith profile text found) ⊎ BeginsWithNone profile text }
{}

/// A line says the same in both profiles, unless its first word is of the extended one alone: then it is unknown in the
/// plain one. So what is a request of the plain profile is the same request of the extended one.
pub fn plain_is_extended()
    ensures line { (line : List ℕ) → (meaning Plain line ≡ meaning Extended line)
        ⊎ (IsStatsLine line × (meaning Plain line ≡ Err UnknownCommand)) }
    ensures request { (text : List ℕ) (request : Request) →
        Spells Plain text (Ok request) → Spells Extended text (Ok request) }
{}
