ghost use Rattle.std.specs.Prelude.{◌≡◌, true, SomeIff};

use crate::value::Value;
use std::alloc::AllocError;
use std::marker::Model;

/// Who asked, and which of its requests it is.
///
/// Session 0 is the clock. The sessions of clients are numbered from 1, and so are the requests of each.
#[derive(Clone, Copy, Debug, PartialEq, Eq, PartialOrd, Ord)]
pub struct Key {
    pub session: u32,
    pub number: u64,
}

/// What a key asks for.
#[derive(Drop, PartialEq, Eq)]
pub enum Act<Op> {
    /// An operation of the object, for a client's session.
    Do(Op),
    /// The end of a client's session.
    Close,
    /// The clock shows the second that is the key's number.
    Tick,
}

/// An act under its key.
#[derive(Drop, PartialEq, Eq)]
pub struct Command<Op> {
    key: Key,
    act: Act<Op>,
}

impl<Op> Model for Command<Op> {
    ghost use Rattle.object.specs.Commands.{KeyedAct, IsCommand};

    ghost Value = { KeyedAct Op };

    ghost view = { λ c. record { key = c.key; act = c.act } };

    ghost invariant = { λ c. IsCommand (record { key = c.key; act = c.act }) };

    ghost inverse = { λ c. record { key = c.key; act = c.act } };
}

impl<Op> Command<Op> {
    ghost use Rattle.object.specs.Commands.{IsCommand};

    /// The command, unless the key may not ask for the act. A number is 1 to 2^62; session 0 asks for
    /// `Tick` and for nothing else, nobody else does, and its number is at most 2^40.
    pub fn new(key: Key, act: Act<Op>) -> Option<Command<Op>>
    where
        Op: Drop,
        ensures { SomeIff result (IsCommand (record { key = key; act = act }))
            (record { key = key; act = act }) }
    {
        let may = match act {
            Act::Do(_) | Act::Close => key.session != 0,
            Act::Tick => key.session == 0 && key.number <= 1 << 40,
        };
        if may && key.number >= 1 && key.number <= 1 << 62 {
            Some(Command { key, act })
        } else {
            None
        }
    }

    /// Who asked.
    pub fn key(&self) -> Key
        ensures key { result ≡ self.now.key }
        ensures allowed { IsCommand self.now }
    {
        self.key
    }

    /// What is asked for.
    pub fn act(&self) -> &Act<Op>
        ensures act { result.now ≡ self.now.act }
        ensures allowed { IsCommand self.now }
    {
        &self.act
    }
}

/// A reply, and the key that it answers.
#[derive(Drop, PartialEq, Eq)]
pub struct Answer<R> {
    pub to: Key,
    pub reply: R,
}

/// A command that was handed in, and how many answers had been given before it.
#[derive(Drop, PartialEq, Eq)]
pub struct Submission<Op> {
    pub command: Command<Op>,
    pub after: usize,
}

impl<Op: Value> Value for Act<Op> {
    ghost use Rattle.std.proofs.Common.{rules};
    ghost use Rattle.std.proofs.lemmas.Grind.{common_steps};

    ghost exact = { Prim.grind (rules, common_steps, Op.exact) };

    fn copy(&self) -> Result<Self, AllocError> {
        match self {
            Act::Do(op) => Ok(Act::Do(op.copy()?)),
            Act::Close => Ok(Act::Close),
            Act::Tick => Ok(Act::Tick),
        }
    }
}

impl<Op: Value> Value for Command<Op> {
    ghost use Rattle.std.proofs.Common.{rules};
    ghost use Rattle.std.proofs.lemmas.Grind.{common_steps};

    ghost exact = { Prim.grind (rules, common_steps, Op.exact) };

    fn copy(&self) -> Result<Self, AllocError> {
        let Command { key, act } = self;
        Ok(Command {
            key: *key,
            act: act.copy()?,
        })
    }
}

impl Value for Key {
    ghost use Rattle.std.proofs.Common.{rules};
    ghost use Rattle.std.proofs.lemmas.Grind.{common_steps};

    ghost exact = { Prim.grind (rules, common_steps) };

    fn copy(&self) -> Result<Self, AllocError> {
        Ok(*self)
    }
}

impl<R: Value> Value for Answer<R> {
    ghost use Rattle.std.proofs.Common.{rules};
    ghost use Rattle.std.proofs.lemmas.Grind.{common_steps};

    ghost exact = { Prim.grind (rules, common_steps, R.exact) };

    fn copy(&self) -> Result<Self, AllocError> {
        Ok(Answer {
            to: self.to,
            reply: self.reply.copy()?,
        })
    }
}

impl<Op: Value> Value for Submission<Op> {
    ghost use Rattle.std.proofs.Common.{rules};
    ghost use Rattle.std.proofs.lemmas.Grind.{common_steps};

    ghost exact = { Prim.grind (rules, common_steps, Op.exact) };

    fn copy(&self) -> Result<Self, AllocError> {
        Ok(Submission {
            command: self.command.copy()?,
            after: self.after,
        })
    }
}
