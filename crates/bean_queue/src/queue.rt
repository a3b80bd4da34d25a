ghost use Rattle.std.specs.Prelude.{◌≡◌, ◌≤◌, ◌^◌, true, false, None, IfOk, IfSome, if◌then◌else◌};
ghost use Rattle.object.specs.Results.{Becomes};
ghost use Rattle.bean_queue.specs.Effects.{do_effect, close_effect, tick_effect, effect, is_quiet, lists_tubes, only_reports};
ghost use Rattle.bean_queue.specs.Tubes.{all_tubes};
ghost use Rattle.bean_queue.specs.Staying.{IsListedBefore};
ghost use Rattle.bean_queue.specs.Calls.{HasObeyed};

use crate::laws::one_holder;
use crate::logic::Logic;
use crate::logic::staying::Listed;
use crate::quiet::{is_quiet, lists_tubes, only_reports};
use crate::scan_jobs::ScanJobs;
use bean_words::{Names, Op, Reply};
use job_store::{JobMap, Jobs};
use object::{Act, Answer, Command, Key, Object};
use std::alloc::{AllocError, Global};
use std::marker::Model;
use std::mem::replace;

/// The work queue over a map of jobs. A command that is obeyed leaves no job that a waiting session may have.
#[derive(Drop)]
pub struct QueueOver<M: JobMap> {
    alloc: Global,
    logic: Logic<M>,
    /// The answers of the command that is obeyed, until they are handed out. The list is kept for its room.
    answers: Vec<Answer<Reply>>,
    /// The answers that nobody is to have. The list is kept for its room.
    unheard: Vec<Answer<Reply>>,
    /// The names of all tubes, where they were listed and no tube has come or gone since.
    listed: Option<Names>,
}

/// The queue that goes over all jobs to find one.
pub type PlainQueue = QueueOver<ScanJobs>;

/// The queue, which keeps what it looks for in order.
pub type Queue = QueueOver<Jobs>;

impl<M: JobMap> Model for QueueOver<M> {
    ghost use Rattle.std.specs.Prelude.{◌≡◌, IfSome};
    ghost use Rattle.bean_queue.specs.Queue.{QueueState};
    ghost use Rattle.bean_queue.specs.Sound.{IsSoundQueue};
    ghost use Rattle.bean_queue.specs.Tubes.{all_tubes};

    ghost Value = { QueueState };

    ghost view = { λ q. q.logic.now };

    ghost invariant = { λ q. (q.logic.before ≡ q.logic.now) × IsSoundQueue q.logic.now
        × IfSome q.listed (λ names. names ≡ all_tubes q.logic.now) };
}

/// The names that are listed, where they stay.
fn listed_if(names: Option<Names>, stay: bool) -> Option<Names>
    ensures { result ≡ (if stay then names else None) }
{
    if stay { names } else { None }
}

impl<M: JobMap> QueueOver<M> {
    /// The names of all tubes. They are made anew, unless they were listed and no tube has come or gone since.
    fn take_names(&mut self) -> Result<Names, AllocError>
        ensures names { IfOk result (λ names. names ≡ all_tubes self.old) }
        ensures same { self.new ≡ self.old }
    {
        match self.listed.take() {
            Some(names) => Ok(names),
            None => self.logic.tubes(self.alloc),
        }
    }

    /// Obeys an operation that lists all tubes, or counts them.
    fn obey_listing(
        &mut self,
        key: Key,
        op: &Op,
        answers: &mut Vec<Answer<Reply>>,
    ) -> Result<(), AllocError>
        requires { lists_tubes op.now ≡ true }
        ensures { HasObeyed self.old self.new answers.old.items answers.new.items
            (do_effect op.now key self.old) result }
    {
        answers.reserve(1)?;
        let names = self.take_names()?;
        match self.logic.obey_listing(self.alloc, key, op, &names) {
            Ok(reply) => {
                self.logic.keep();
                self.listed = Some(names);
                answers.push(Answer { to: key, reply })?;
                Ok(())
            }
            Err(e) => {
                self.logic.take_back();
                Err(e)
            }
        }
    }

    /// Takes the names of all tubes, where they are listed and an operation brings no tube.
    fn take_listed(&mut self, key: Key, op: &Op) -> Result<Option<Listed>, AllocError>
        ensures before { IfOk result (λ listed. IfSome listed (IsListedBefore op.now key self.old)) }
        ensures same { self.new ≡ self.old }
    {
        match self.listed.take() {
            Some(names) => self.logic.listed_before(names, key, op),
            None => Ok(None),
        }
    }

    /// Obeys a quiet operation that lists no tubes.
    fn obey_quiet(
        &mut self,
        key: Key,
        op: &Op,
        out: &mut Vec<Answer<Reply>>,
    ) -> Result<(), AllocError>
        requires quiet { is_quiet op.now ≡ true }
        requires other { lists_tubes op.now ≡ false }
        ensures { HasObeyed self.old self.new out.old.items out.new.items
            (do_effect op.now key self.old) result }
    {
        out.reserve(1)?;
        let before = self.take_listed(key, op)?;
        match self.logic.obey_quiet(self.alloc, key, op) {
            Ok(reply) => {
                self.logic.keep();
                self.listed = self.logic.still_listed(before);
                out.push(Answer { to: key, reply })?;
                Ok(())
            }
            Err(e) => {
                self.logic.take_back();
                Err(e)
            }
        }
    }

    /// Obeys an operation that is not quiet.
    fn obey_loud(
        &mut self,
        key: Key,
        op: &Op,
        out: &mut Vec<Answer<Reply>>,
    ) -> Result<(), AllocError>
        requires { is_quiet op.now ≡ false }
        ensures { HasObeyed self.old self.new out.old.items out.new.items
            (do_effect op.now key self.old) result }
    {
        self.answers.clear();
        if let Err(e) = self.logic.obey_loud(key, op, &mut self.answers) {
            self.logic.take_back();
            return Err(e);
        }
        if let Err(e) = out.append(&mut self.answers) {
            self.logic.take_back();
            return Err(e);
        }
        self.logic.keep();
        Ok(())
    }

    /// Ends a session.
    #[tactic(auto, unfolding(crate::specs::Effects::close_effect))]
    fn close(&mut self, session: u32, out: &mut Vec<Answer<Reply>>) -> Result<(), AllocError>
        ensures { HasObeyed self.old self.new out.old.items out.new.items
            (close_effect session self.old) result }
    {
        self.answers.clear();
        let alloc = self.alloc;
        if let Err(e) = self.logic.release_all(alloc, session, &mut self.answers) {
            self.logic.take_back();
            return Err(e);
        }
        if let Err(e) = out.append(&mut self.answers) {
            self.logic.take_back();
            return Err(e);
        }
        let stay = self.logic.forget(session);
        self.logic.keep();
        self.listed = listed_if(self.listed.take(), stay);
        Ok(())
    }

    /// Lets a second come, unless it has come before.
    #[tactic(auto, unfolding(crate::specs::Effects::tick_effect))]
    fn tick(&mut self, second: u64, out: &mut Vec<Answer<Reply>>) -> Result<(), AllocError>
        requires { second ≤ 2 ^ 40 }
        ensures { HasObeyed self.old self.new out.old.items out.new.items
            (tick_effect second self.old) result }
    {
        if self.logic.has_come(second) {
            return Ok(());
        }
        self.answers.clear();
        let over = match self.logic.pass(self.alloc, second, &mut self.answers) {
            Ok(over) => over,
            Err(e) => {
                self.logic.take_back();
                return Err(e);
            }
        };
        if let Err(e) = out.append(&mut self.answers) {
            self.logic.take_back();
            return Err(e);
        }
        self.logic.settle_all(over.as_slice());
        self.logic.keep();
        Ok(())
    }

    /// Obeys an operation that only reports, and answers nobody.
    fn obey_report(&mut self, key: Key, op: &Op) -> Result<(), AllocError>
        requires { only_reports op.now ≡ true }
        ensures { Becomes result self.old self.new (do_effect op.now key self.old).state }
    {
        if let Err(e) = self.logic.obey_report(key, op) {
            self.logic.take_back();
            return Err(e);
        }
        self.logic.keep();
        Ok(())
    }

    /// Obeys a command, and gives its answers to nobody.
    fn obey_unheard(&mut self, cmd: &Command<Op>) -> Result<(), AllocError>
        ensures { Becomes result self.old self.new (effect cmd.now self.old).state }
    {
        let mut unheard = replace(&mut self.unheard, Vec::new(self.alloc));
        let obeyed = self.apply(cmd, &mut unheard);
        unheard.clear();
        self.unheard = unheard;
        obeyed
    }
}

impl<M: JobMap> Object for QueueOver<M> {
    type Op = Op;

    type Reply = Reply;

    ghost use Rattle.bean_queue.specs.Effects.{queue_rules};
    ghost use Rattle.bean_queue.specs.Waits.{Waits};
    ghost use Rattle.bean_queue.specs.Holds.{HasOneHolder};
    ghost use Rattle.bean_queue.specs.WaitLaws.{fresh-idle, effect-lawful, effect-once};
    ghost use Rattle.std.specs.Prelude.{refl};

    ghost rules = { queue_rules ⟦<Op as PartialEq>⟧.eq };

    ghost waits = { Waits };

    ghost promise = { HasOneHolder };

    fn new(alloc: Global) -> Result<Self, AllocError> {
        Ok(QueueOver {
            alloc,
            logic: Logic::new(alloc),
            answers: Vec::new(alloc),
            unheard: Vec::new(alloc),
            listed: None,
        })
    }

    #[tactic(auto, unfolding(crate::specs::Effects::effect, crate::specs::Effects::act_effect))]
    fn apply(&mut self, cmd: &Command<Op>, out: &mut Vec<Answer<Reply>>) -> Result<(), AllocError> {
        let key = cmd.key();
        match cmd.act() {
            Act::Do(op) => {
                if lists_tubes(op) {
                    self.obey_listing(key, op, out)
                } else if is_quiet(op) {
                    self.obey_quiet(key, op, out)
                } else {
                    self.obey_loud(key, op, out)
                }
            }
            Act::Close => self.close(key.session, out),
            Act::Tick => self.tick(key.number, out),
        }
    }

    #[tactic(auto, unfolding(crate::specs::Effects::effect, crate::specs::Effects::act_effect))]
    fn obey(&mut self, cmd: &Command<Op>) -> Result<(), AllocError> {
        match cmd.act() {
            Act::Do(op) if only_reports(op) => self.obey_report(cmd.key(), op),
            _ => self.obey_unheard(cmd),
        }
    }

    fn keeps_promise() {
        one_holder();
    }

    ghost same = { refl };

    ghost idle = { fresh-idle };

    ghost waited = { λ s c. (effect-lawful c s).waits };

    ghost named = { λ s c. (effect-lawful c s).named };

    ghost over = { λ s c. (effect-lawful c s).over };

    ghost once = { λ s c. effect-once c s };
}
