ghost use Rattle.std.specs.Prelude.{◌≡◌, true, ◌↔◌, IfOk};
ghost use Rattle.std.specs.FinMap.{empty};
ghost use Rattle.object.specs.Results.{Becomes, AddsAtEnd};
ghost use Rattle.object.specs.OnceOnly.{is_later, filtered, filtered_answers};

use crate::command::{Answer, Command, Key};
use crate::latest::Latest;
use crate::objects::Object;
use std::alloc::{AllocError, Global};
use std::marker::Model;

/// Whether a command counted.
#[derive(Clone, Copy, Debug, PartialEq, Eq)]
pub enum Effect {
    /// The object obeyed it.
    Done,
    /// An earlier command of its session had a number at least as great, so nothing was done.
    Stale,
}

/// An object behind a filter, which lets each session's commands through in rising number only.
#[derive(Drop)]
pub struct Once<O: Object> {
    object: O,
    latest: Latest,
}

impl<O: Object> Model for Once<O> {
    ghost use Rattle.std.specs.Coded.{codes};
    ghost use Rattle.object.specs.OnceOnly.{Filtered, latest_code};

    ghost Value = { Filtered O };

    ghost coded = { Prim.hlevel (codes, latest_code, O.code) };

    ghost view = { λ o. record { object = o.object; latest = o.latest } };
}

impl<O: Object> Once<O> {
    /// A new object, whose filter has seen no command.
    pub fn new(alloc: Global) -> Result<Once<O>, AllocError>
        ensures object { IfOk result (λ o. o.object ≡ O.rules.fresh) }
        ensures latest { IfOk result (λ o. o.latest ≡ empty) }
    {
        Ok(Once {
            object: O::new(alloc)?,
            latest: Latest::new(alloc),
        })
    }

    /// This object, behind a filter that knows these numbers.
    pub fn of(object: O, latest: Latest) -> Once<O>
        ensures { result ≡ record { object = object; latest = latest } }
    {
        Once { object, latest }
    }

    /// The object.
    pub fn object(&self) -> &O
        ensures { result.now ≡ self.now.object }
    {
        &self.object
    }

    /// The greatest number of each session so far.
    pub fn latest(&self) -> &Latest
        ensures { result.now ≡ self.now.latest }
    {
        &self.latest
    }

    /// Whether a command of this key is later than each earlier one of its session, so that the object would obey it.
    pub fn lets_through(&self, key: Key) -> bool
        ensures { result ≡ is_later key self.now.latest }
    {
        match self.latest.get(key.session) {
            None => true,
            Some(latest) => latest < key.number,
        }
    }

    /// Lets the object obey the command, unless it is stale, and appends the answers to `out`.
    pub fn apply(
        &mut self,
        cmd: &Command<O::Op>,
        out: &mut Vec<Answer<O::Reply>>,
    ) -> Result<Effect, AllocError>
        ensures done { IfOk result (λ effect. (effect
            ≡ Effect.Done) ↔ (is_later cmd.now.key self.old.latest ≡ true)) }
        ensures state { Becomes result self.old self.new
            (filtered O.rules.after self.old cmd.now) }
        ensures out { AddsAtEnd result out.old out.new
            (filtered_answers O.rules.answers self.old cmd.now) }
        ensures stale { IfOk result (λ effect. effect ≡ Effect.Stale →
            (self.new ≡ self.old) × (out.new.items ≡ out.old.items)) }
    {
        let key = cmd.key();
        match self.latest.get(key.session) {
            Some(latest) if key.number <= latest => Ok(Effect::Stale),
            Some(_) => {
                self.object.apply(cmd, out)?;
                self.latest.set(key.session, key.number)?;
                Ok(Effect::Done)
            }
            None => {
                self.latest.set(key.session, key.number)?;
                if let Err(e) = self.object.apply(cmd, out) {
                    self.latest.forget(key.session);
                    return Err(e);
                }
                Ok(Effect::Done)
            }
        }
    }

    /// Lets the object obey the command, unless it is stale, and answers nobody.
    pub fn obey(&mut self, cmd: &Command<O::Op>) -> Result<Effect, AllocError>
        ensures done { IfOk result (λ effect. (effect
            ≡ Effect.Done) ↔ (is_later cmd.now.key self.old.latest ≡ true)) }
        ensures state { Becomes result self.old self.new
            (filtered O.rules.after self.old cmd.now) }
        ensures stale { IfOk result (λ effect. effect ≡ Effect.Stale → self.new ≡ self.old) }
    {
        let Key { session, number } = cmd.key();
        match self.latest.get(session) {
            Some(latest) if number <= latest => Ok(Effect::Stale),
            Some(_) => {
                self.object.obey(cmd)?;
                self.latest.set(session, number)?;
                Ok(Effect::Done)
            }
            None => {
                self.latest.set(session, number)?;
                if let Err(e) = self.object.obey(cmd) {
                    self.latest.forget(session);
                    return Err(e);
                }
                Ok(Effect::Done)
            }
        }
    }
}
