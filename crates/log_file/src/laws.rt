ghost use Rattle.std.specs.Prelude.{◌≡◌, ◌+◌, ℕ, List, length};
ghost use Rattle.std.specs.List.{AllByRecursion};
ghost use Rattle.object.specs.Lists.{IsBeginning};
ghost use Rattle.object.specs.declared.command.Command.{Command};
ghost use Rattle.ballot.specs.Members.{IsMembers};
ghost use Rattle.bean_words.specs.declared.op.Op.{Op};
ghost use Rattle.command_log.specs.declared.faults.LogFault.{LogFault};
ghost use Rattle.command_log.specs.declared.version.LogVersion.{LogVersion};
ghost use Rattle.command_log.specs.declared.whole.Whole.{Whole};
ghost use Rattle.command_log.specs.Faults.{IsLogFault};
ghost use Rattle.command_log.specs.Lines.{IsLogged};
ghost use Rattle.command_log.specs.Reading.{IsWholeLog};
ghost use Rattle.command_log.specs.Text.{log_text};
ghost use Rattle.log_file.specs.Logs.{BeginsWithLog, HasOtherHead, HasStrayLine, IsBehind, IsCutLog};

/// A log that was kept is read again, whatever stands behind it: all its commands are, and no fault is told but of a line
/// behind them. Where a log's text is cut behind its head, a log is read, and of its commands alone, some first ones; and
/// where it isn't cut, all of them.
pub fn kept_is_read()
    ensures kept { (text : List ℕ) (version : LogVersion) (members : List ℕ)
        (kept read : List (Command Op)) (whole : Whole)
        → BeginsWithLog text version members kept → IsWholeLog text whole read
        → (whole.version ≡ version) × (whole.members ≡ members) × IsBeginning kept read }
    ensures behind { (text : List ℕ) (version : LogVersion) (members : List ℕ)
        (kept : List (Command Op)) (fault : LogFault)
        → BeginsWithLog text version members kept → IsLogFault text fault → IsBehind (length kept) fault }
    ensures noted { (text : List ℕ) (version : LogVersion) (members : List ℕ)
        (noted read : List (Command Op)) (whole : Whole)
        → IsCutLog text version members noted → IsWholeLog text whole read
        → (whole.version ≡ version) × (whole.members ≡ members) × IsBeginning read noted }
    ensures no_fault { (text : List ℕ) (version : LogVersion) (members : List ℕ)
        (noted : List (Command Op)) (fault : LogFault)
        → IsCutLog text version members noted → IsLogFault text fault → ⊥ }
    ensures all { (version : LogVersion) (members : List ℕ) (commands read : List (Command Op)) (whole : Whole)
        → IsMembers members → AllByRecursion IsLogged commands
        → IsWholeLog (log_text version members commands) whole read
        → (whole.version ≡ version) × (whole.members ≡ members) × (read ≡ commands) }
{}

/// Where behind a log stands the line of a command, of whatever version, that isn't chained to the log's last line, as where
/// a line was left out, doubled or swapped with another, nothing is read, and the fault is told of that line.
pub fn stray_is_damage()
    ensures unread { (text : List ℕ) (version : LogVersion) (members : List ℕ)
        (commands read : List (Command Op)) (whole : Whole)
        → HasStrayLine text version members commands → IsWholeLog text whole read → ⊥ }
    ensures told { (text : List ℕ) (version : LogVersion) (members : List ℕ)
        (commands : List (Command Op)) (fault : LogFault)
        → HasStrayLine text version members commands → IsLogFault text fault
        → fault ≡ LogFault.Damaged (length commands + 2) }
{}

/// Where the head of a log of at least one command was changed to one of another version, nothing is read, and the fault is
/// told of the line behind the head.
pub fn other_head_is_damage()
    ensures unread { (text : List ℕ) (read : List (Command Op)) (whole : Whole)
        → HasOtherHead text → IsWholeLog text whole read → ⊥ }
    ensures told { (text : List ℕ) (fault : LogFault)
        → HasOtherHead text → IsLogFault text fault → fault ≡ LogFault.Damaged 2 }
{}
