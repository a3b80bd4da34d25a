ghost use Rattle.std.specs.Prelude.{◌≡◌, ℕ, List};
ghost use Rattle.std.specs.List.{AllByRecursion};
ghost use Rattle.object.specs.declared.command.Command.{Command};
ghost use Rattle.ballot.specs.Members.{IsMembers};
ghost use Rattle.bean_words.specs.declared.op.Op.{Op};
ghost use Rattle.command_log.specs.declared.version.LogVersion.{LogVersion};
ghost use Rattle.command_log.specs.Lines.{IsLogged};
ghost use Rattle.command_log.specs.Text.{log_text};

/// Two logs have one text only where they are one: the same version, the same members, and the same commands in the same
/// order.
pub fn one_log()
    ensures { (a b : LogVersion) (v w : List ℕ) (cs ds : List (Command Op)) → IsMembers v → IsMembers w
        → AllByRecursion IsLogged cs → AllByRecursion IsLogged ds
        → log_text a v cs ≡ log_text b w ds → (a ≡ b) × (v ≡ w) × (cs ≡ ds) }
{}
