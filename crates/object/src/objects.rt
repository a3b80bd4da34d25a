ghost use Rattle.std.specs.Prelude.{◌≡◌, ◌++◌, ◌⊎◌, List, IfOk, OnOk, OnErr};
ghost use Rattle.object.specs.declared.command.Command.{Command};
ghost use Rattle.object.specs.declared.command.Answer.{Answer};
ghost use Rattle.object.specs.declared.command.Key.{Key};
ghost use Rattle.object.specs.Lists.{In};
ghost use Rattle.object.specs.Answers.{AnswersOnce};
ghost use Rattle.object.specs.Objects.{Rules};

use crate::command::{Answer, Command};
use crate::value::Value;
use std::alloc::{AllocError, Global};

/// A state that obeys commands one by one.
///
/// `rules` say what it does: `fresh` is the state of a new object, `after` what a command makes of a state, and
/// `answers` what is answered meanwhile: to the command itself, or to earlier ones that waited for their answer; `same`
/// tells when two operations are one. `waits` tells which keys wait. `promise` is what holds of each list of commands
/// that a new object obeys.
pub trait Object: Drop + Sized {
    type Op: Value;

    type Reply: Value;

    ghost rules: { Rules Self Self.Op Self.Reply };

    ghost waits: { Self → Key → Type 0 };

    ghost promise: { List (Command Self.Op) → Type 0 };

    /// A new object.
    fn new(alloc: Global) -> Result<Self, AllocError>
        ensures { IfOk result (λ o. o ≡ rules.fresh) };

    /// Obeys a command, and appends the answers to `out`. For want of memory it changes neither.
    fn apply(
        &mut self,
        cmd: &Command<Self::Op>,
        out: &mut Vec<Answer<Self::Reply>>,
    ) -> Result<(), AllocError>
        ensures state { OnOk result (self.new ≡ rules.after self.old cmd.now) }
        ensures out { OnOk result (out.new.items ≡ out.old.items
            ++ rules.answers self.old cmd.now) }
        ensures err { OnErr result ((self.new ≡ self.old) × (out.new.items ≡ out.old.items)) };

    /// Obeys a command, and answers nobody. For want of memory it changes nothing.
    fn obey(&mut self, cmd: &Command<Self::Op>) -> Result<(), AllocError>
        ensures state { OnOk result (self.new ≡ rules.after self.old cmd.now) }
        ensures err { OnErr result (self.new ≡ self.old) };

    /// The promise holds of all commands. Nothing is done.
    fn keeps_promise()
        ensures { (commands : List (Command Self.Op)) → promise commands };

    // Two operations are one where `==` says so.
    ghost same: { rules.same ≡ Self.Op.eq };

    // Nothing waits in a new object.
    ghost idle: { (k : Key) → waits rules.fresh k → ⊥ };

    // What waits after a command waited before it, or is the command itself.
    ghost waited: { (s : Self) (c : Command Self.Op) (k : Key) → waits (rules.after s c) k → waits s k ⊎ (k ≡ c.key) };

    // Each answer is to the command itself, or to one that waited.
    ghost named: { (s : Self) (c : Command Self.Op) (a : Answer Self.Reply) → In a (rules.answers s c) → (a.to ≡ c.key) ⊎ waits s a.to };

    // What is answered waits no more.
    ghost over: { (s : Self) (c : Command Self.Op) (a : Answer Self.Reply) → In a (rules.answers s c) → waits (rules.after s c) a.to → ⊥ };

    // One command brings no key two answers.
    ghost once: { (s : Self) (c : Command Self.Op) → AnswersOnce (rules.answers s c) };
}
