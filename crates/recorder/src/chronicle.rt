ghost use Rattle.std.specs.Prelude.{◌≡◌, ◌≤◌, SomeIff};
ghost use Rattle.recorder.specs.Chronicles.{IsChronicle};
ghost use Rattle.object.specs.Happenings.{IsTimeline};
ghost use Rattle.object.specs.Results.{Becomes};
ghost use Rattle.recorder.specs.Growing.{begun, submitted_last, answered_last, placed_last};

use crate::timeline::is_timeline;
use ballot::Members;
use object::{Answer, Command, Key, Submission, Value};
use std::alloc::{AllocError, Global};
use std::marker::Model;

/// What happened in a run of nodes.
///
/// A submission has the count of the answers that were given before it, so submissions and answers together are what
/// happened, in its order.
#[derive(Drop)]
pub struct Chronicle<Op: Value, Reply: Value> {
    members: Members,
    submitted: Vec<Submission<Op>>,
    answers: Vec<Answer<Reply>>,
    order: Vec<Key>,
}

impl<Op: Value, Reply: Value> Model for Chronicle<Op, Reply> {
    ghost use Rattle.std.specs.Coded.{codes};
    ghost use Rattle.recorder.specs.Chronicles.{Chronicle, IsChronicle};

    ghost Value = { Chronicle Op Reply };

    ghost coded = { Prim.hlevel (codes, Op.code, Reply.code) };

    ghost view = { λ c. record {
      members = c.members;
      submitted = c.submitted.items;
      answers = c.answers.items;
      order = c.order.items;
    } };

    ghost invariant = { λ c. IsChronicle (record {
      members = c.members;
      submitted = c.submitted.items;
      answers = c.answers.items;
      order = c.order.items;
    }) };
}

impl<Op: Value, Reply: Value> Chronicle<Op, Reply> {
    /// The chronicle of these parts, where no submission comes before an earlier one, and none after more answers than
    /// were given.
    pub fn new(
        members: Members,
        submitted: Vec<Submission<Op>>,
        answers: Vec<Answer<Reply>>,
        order: Vec<Key>,
    ) -> Option<Chronicle<Op, Reply>>
        ensures { SomeIff result
            (IsTimeline (record { submitted = submitted.items; answers = answers.items }))
            (record {
              members = members;
              submitted = submitted.items;
              answers = answers.items;
              order = order.items;
            }) }
    {
        // Members have weights that a chronicle may have.
        let _weights = members.weights();
        if !is_timeline(&submitted, &answers) {
            return None;
        }
        Some(Chronicle {
            members,
            submitted,
            answers,
            order,
        })
    }

    /// The chronicle of these members before anything happens.
    pub fn begin(alloc: Global, members: Members) -> Chronicle<Op, Reply>
        ensures { result ≡ begun members }
    {
        let _weights = members.weights();
        Chronicle {
            members,
            submitted: Vec::new(alloc),
            answers: Vec::new(alloc),
            order: Vec::new(alloc),
        }
    }

    /// The nodes that ran, with their weights.
    pub fn members(&self) -> Members
        ensures members { result ≡ self.now.members }
        ensures kept { IsChronicle self.now }
    {
        self.members
    }

    /// The commands that were submitted, each with the count of the answers given before it.
    pub fn submitted(&self) -> &[Submission<Op>]
        ensures submitted { result.now ≡ self.now.submitted }
        ensures kept { IsChronicle self.now }
    {
        self.submitted.as_slice()
    }

    /// The answers that were given, in their order.
    pub fn answers(&self) -> &[Answer<Reply>]
        ensures answers { result.now ≡ self.now.answers }
        ensures kept { IsChronicle self.now }
    {
        self.answers.as_slice()
    }

    /// The keys of the commands that counted, in the order in which they took effect.
    pub fn order(&self) -> &[Key]
        ensures order { result.now ≡ self.now.order }
        ensures kept { IsChronicle self.now }
    {
        self.order.as_slice()
    }

    /// A command more was submitted, after all that happened.
    pub fn submit(&mut self, command: Command<Op>) -> Result<(), AllocError>
        ensures ok { Becomes result self.old self.new (submitted_last command self.old) }
    {
        self.submitted.push(Submission {
            command,
            after: self.answers.len(),
        })?;
        Ok(())
    }

    /// An answer more was given, after all that happened.
    pub fn answer(&mut self, answer: Answer<Reply>) -> Result<(), AllocError>
        ensures ok { Becomes result self.old self.new (answered_last answer self.old) }
    {
        self.answers.push(answer)?;
        Ok(())
    }

    /// A command more counted, after all others.
    pub fn place(&mut self, key: Key) -> Result<(), AllocError>
        ensures ok { Becomes result self.old self.new (placed_last key self.old) }
    {
        self.order.push(key)?;
        Ok(())
    }
}
