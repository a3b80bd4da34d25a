ghost use Rattle.std.specs.Prelude.{◌≡◌, ◌∷◌, [], IfOk, true};

use crate::command::{Act, Answer, Command};
use crate::objects::Object;
use crate::value::Value;
use std::alloc::{AllocError, Global};

/// What may be asked of a register.
#[derive(Clone, Copy, Debug, PartialEq, Eq)]
pub enum RegisterOp {
    /// It holds this number from now on.
    Write(u64),
    /// The number that it holds.
    Read,
}

impl Value for RegisterOp {
    ghost use Rattle.std.proofs.Common.{rules};
    ghost use Rattle.std.proofs.lemmas.Grind.{common_steps};

    ghost exact = { Prim.grind (rules, common_steps) };

    fn copy(&self) -> Result<Self, AllocError> {
        Ok(*self)
    }
}

/// What a register replies.
#[derive(Clone, Copy, Debug, PartialEq, Eq)]
pub enum RegisterReply {
    Done,
    Value(u64),
}

impl Value for RegisterReply {
    ghost use Rattle.std.proofs.Common.{rules};
    ghost use Rattle.std.proofs.lemmas.Grind.{common_steps};

    ghost exact = { Prim.grind (rules, common_steps) };

    fn copy(&self) -> Result<Self, AllocError> {
        Ok(*self)
    }
}

/// The least object that is of any use: it holds a number, 0 at first. Sessions may close and seconds may pass;
/// it takes no notice.
#[derive(Clone, Copy, Debug, PartialEq, Eq)]
pub struct Register {
    pub value: u64,
}

impl Object for Register {
    type Op = RegisterOp;

    type Reply = RegisterReply;

    ghost use Rattle.std.specs.Bool.{⊤};
    ghost use Rattle.object.specs.Registers.{written, register_answers, told-once, told-to};

    ghost rules = { record {
      fresh = record { value = 0 };
      after = λ r c. written r c.act;
      answers = λ r c. register_answers r c.key c.act;
      same = ⟦<RegisterOp as PartialEq>⟧.eq;
    } };

    ghost waits = { λ r k. ⊥ };

    // a register promises nothing but its answers
    ghost promise = { λ commands. ⊤ };

    fn new(_alloc: Global) -> Result<Self, AllocError> {
        Ok(Register { value: 0 })
    }

    fn apply(
        &mut self,
        cmd: &Command<RegisterOp>,
        out: &mut Vec<Answer<RegisterReply>>,
    ) -> Result<(), AllocError> {
        let to = cmd.key();
        match cmd.act() {
            Act::Do(RegisterOp::Write(value)) => {
                out.push(Answer {
                    to,
                    reply: RegisterReply::Done,
                })?;
                self.value = *value;
            }
            Act::Do(RegisterOp::Read) => {
                out.push(Answer {
                    to,
                    reply: RegisterReply::Value(self.value),
                })?;
            }
            Act::Close | Act::Tick => {}
        }
        Ok(())
    }

    fn obey(&mut self, cmd: &Command<RegisterOp>) -> Result<(), AllocError> {
        if let Act::Do(RegisterOp::Write(value)) = cmd.act() {
            *self = Register { value: *value };
        }
        Ok(())
    }

    fn keeps_promise() {}

    ghost use Rattle.std.proofs.Common.{inl};
    ghost use Rattle.std.specs.Prelude.{refl};

    ghost same = { refl };

    ghost idle = { λ k h. h };

    ghost waited = { λ s c k h. inl h };

    ghost named = { λ s c a i. inl (told-to s c.key c.act a i) };

    ghost over = { λ s c a i h. h };

    ghost once = { λ s c. told-once s c.key c.act };
}
