ghost use Rattle.std.specs.Prelude.{◌≡◌, List, [], ◌∷◌, true, false, None, Some, if◌then◌else◌, not, option_map, map, drop, IsOk, IfOk};
ghost use Rattle.std.specs.List.{filter_map};
ghost use Rattle.std.specs.Option.{option_copied};
ghost use Rattle.object.specs.Lists.{In};
ghost use Rattle.object.specs.Keys.{stands, found};
ghost use Rattle.object.specs.Answers.{answered_key};
ghost use Rattle.object.specs.Happenings.{submitted_key, is_submitted, with_submission};
ghost use Rattle.object.specs.Results.{Becomes};
ghost use Rattle.object.specs.declared.command.Answer.{Answer};
ghost use Rattle.recorder.specs.Records.{IsRecord, EndsOpen, blank, command_under, own_key, commands_from, with_first_answers, with_place, without_last_submission};
ghost use Rattle.recorder.specs.Fates.{fate_at};

use crate::fate::Fate;
use crate::keyed_list::KeyedList;
use crate::room::make_room;
use object::{Answer, Command, Key, Submission, Value, copies_of};
use std::alloc::{AllocError, Global};
use std::marker::Model;

/// What happened, in the order in which it happened.
///
/// A submission makes the room that its answer and its place will need, so that these take no memory.
#[derive(Drop)]
pub struct Recorder<Op: Value, Reply: Value> {
    submitted: KeyedList<Submission<Op>>,
    // What became of each submission, in the same order.
    fates: Vec<Fate>,
    answers: Vec<Answer<Reply>>,
    order: Vec<Key>,
    alloc: Global,
}

impl<Op: Value, Reply: Value> Model for Recorder<Op, Reply> {
    ghost use Rattle.std.specs.Prelude.{vec_capacity};
    ghost use Rattle.std.specs.Coded.{codes};
    ghost use Rattle.recorder.specs.Records.{Record, record_of};
    ghost use Rattle.recorder.specs.Fates.{IsRecorded};

    ghost Value = { Record Op Reply };

    ghost coded = { Prim.hlevel (codes, Op.code, Reply.code) };

    ghost view = { λ r. record_of r.submitted r.answers.items r.order.items };

    ghost invariant = { λ r. IsRecorded (record_of r.submitted r.answers.items r.order.items)
        r.fates.items (vec_capacity r.answers) (vec_capacity r.order) };
}

impl<Op: Value, Reply: Value> Recorder<Op, Reply> {
    /// Nothing happened yet.
    pub fn new(alloc: Global) -> Recorder<Op, Reply>
        ensures { result ≡ blank }
    {
        Recorder {
            submitted: KeyedList::new(alloc),
            fates: Vec::new(alloc),
            answers: Vec::new(alloc),
            order: Vec::new(alloc),
            alloc,
        }
    }

    /// A copy of the command is submitted after all answers so far, unless its key was submitted; tells
    /// which. It fails for want of memory alone, and takes none for a key that was submitted. What is new
    /// can be withdrawn, and then all is as it was.
    pub fn submit(&mut self, command: &Command<Op>) -> Result<bool, AllocError>
        ensures ok { Becomes result self.old self.new
            (record self.old { happenings = with_submission command.now self.old.happenings }) }
        ensures new { IfOk result (λ is_new.
            is_new ≡ not (is_submitted command.now.key self.old.happenings.submitted)) }
        ensures open { IfOk result (λ is_new. is_new ≡ true → EndsOpen self.new) }
        ensures back { IfOk result (λ is_new. is_new ≡ true
            → without_last_submission self.new ≡ self.old) }
        ensures idle { is_submitted command.now.key self.old.happenings.submitted ≡ true
            → IsOk result }
    {
        if self.submitted.has(command.key()) {
            return Ok(false);
        }
        let command = command.copy()?;
        let after = self.answers.len();
        self.fates.reserve(1)?;
        let room = self.fates.capacity();
        make_room(&mut self.answers, room)?;
        make_room(&mut self.order, room)?;
        self.submitted.push(Submission { command, after })?;
        self.fates.push_reserved(Fate {
            answer: None,
            is_placed: false,
        });
        Ok(true)
    }

    /// The last submission is taken back, which nothing followed from.
    pub fn withdraw(&mut self)
        requires { EndsOpen self.old }
        ensures { self.new ≡ without_last_submission self.old }
    {
        self.submitted.pop();
        let _ = self.fates.pop();
    }

    /// These answers to commands that were submitted are given, but for those to a key that has its answer, in
    /// the record or earlier in the list. The list is empty then.
    pub fn answer_all(&mut self, given: &mut Vec<Answer<Reply>>)
        requires { (a : Answer Reply) → In a given.old.items →
            is_submitted a.to self.old.happenings.submitted ≡ true }
        ensures answers { self.new ≡ with_first_answers given.old.items self.old }
        ensures emptied { given.new.items ≡ [] }
    {
        let _ = &self.answers;
        given.reverse();
        while let Some(answer) = given.pop() {
            self.answer(answer);
        }
    }

    // The command of the key that is answered was submitted. The answer is given, unless the key has one.
    fn answer(&mut self, answer: Answer<Reply>)
        requires { is_submitted answer.to self.old.happenings.submitted ≡ true }
        ensures answers { self.new ≡ with_first_answers (answer ∷ []) self.old }
        ensures kept { IsRecord self.new }
    {
        let Some(place) = self.submitted.place_of(answer.to) else {
            unreachable!()
        };
        let fate = &mut self.fates[place];
        if fate.answer.is_none() {
            fate.answer = Some(self.answers.len());
            self.answers.push_reserved(answer);
        }
    }

    /// The command of this key, which was submitted, takes effect, unless it did; tells which.
    pub fn place(&mut self, key: Key) -> bool
        requires { is_submitted key self.old.happenings.submitted ≡ true }
        ensures placed { self.new ≡ with_place key self.old }
        ensures new { result ≡ not (stands own_key key self.old.order) }
    {
        let Some(place) = self.submitted.place_of(key) else {
            unreachable!()
        };
        let fate = &mut self.fates[place];
        if fate.is_placed {
            return false;
        }
        fate.is_placed = true;
        self.order.push_reserved(key);
        true
    }

    /// The submission of this key, where there is one.
    pub fn submission_of(&self, key: Key) -> Option<&Submission<Op>>
        ensures { option_copied result ≡ found submitted_key key self.now.happenings.submitted }
    {
        self.submitted.get(key)
    }

    // What became of the submission of this key.
    fn fate_of(&self, key: Key) -> Option<Fate>
        ensures fate { result ≡
            (if is_submitted key self.now.happenings.submitted then Some
            (fate_at self.now key) else None) }
        ensures kept { IsRecord self.now }
    {
        let place = self.submitted.place_of(key)?;
        Some(self.fates[place])
    }

    /// The reply to the command of this key, where it was answered.
    pub fn answer_to(&self, key: Key) -> Option<&Reply>
        ensures { option_copied result ≡
            option_map (λ a. a.reply) (found answered_key key self.now.happenings.answers) }
    {
        let place = self.fate_of(key)?.answer?;
        let answer = self.answers.get(place)?;
        Some(&answer.reply)
    }

    /// Whether the command of this key took effect.
    pub fn is_placed(&self, key: Key) -> bool
        ensures { result ≡ stands own_key key self.now.order }
    {
        match self.fate_of(key) {
            Some(fate) => fate.is_placed,
            None => false,
        }
    }

    /// The first submission of each key, in the order in which they came.
    pub fn submitted(&self) -> &[Submission<Op>]
        ensures items { result.now ≡ self.now.happenings.submitted }
        ensures kept { IsRecord self.now }
    {
        let _ = &self.answers;
        self.submitted.as_slice()
    }

    /// The first answer to each key, in the order in which they came.
    pub fn answers(&self) -> &[Answer<Reply>]
        ensures items { result.now ≡ self.now.happenings.answers }
        ensures kept { IsRecord self.now }
    {
        self.answers.as_slice()
    }

    /// The keys of the commands that took effect, in their order.
    pub fn order(&self) -> &[Key]
        ensures items { result.now ≡ self.now.order }
        ensures kept { IsRecord self.now }
    {
        self.order.as_slice()
    }

    /// The commands that took effect, in their order, but for so many of the first ones. It fails for want of memory alone.
    pub fn placed_from(&self, count: usize) -> Result<Vec<Command<Op>>, AllocError>
        ensures commands { IfOk result (λ commands. commands.items ≡ commands_from count self.now) }
        ensures keys { map (λ c. c.key) (commands_from count self.now) ≡ drop count self.now.order }
    {
        let keys = self.order.get(count..).unwrap_or(&[]);
        commands_of(self.alloc, &self.submitted, keys)
    }

    /// The three lists once more. It fails for want of memory alone.
    pub fn copies(&self) -> Result<(Vec<Submission<Op>>, Vec<Answer<Reply>>, Vec<Key>), AllocError>
        ensures submitted { IfOk result (λ copies. copies.0.items ≡ self.now.happenings.submitted) }
        ensures answers { IfOk result (λ copies. copies.1.items ≡ self.now.happenings.answers) }
        ensures order { IfOk result (λ copies. copies.2.items ≡ self.now.order) }
        ensures kept { IsRecord self.now }
    {
        let submitted = copies_of(self.alloc, self.submitted.as_slice())?;
        let answers = copies_of(self.alloc, self.answers.as_slice())?;
        let order = copies_of(self.alloc, self.order.as_slice())?;
        Ok((submitted, answers, order))
    }
}

// The commands that were submitted under these keys.
fn commands_of<Op: Value>(
    alloc: Global,
    submitted: &KeyedList<Submission<Op>>,
    keys: &[Key],
) -> Result<Vec<Command<Op>>, AllocError>
    ensures { IfOk result (λ commands. commands.items
        ≡ filter_map (command_under submitted.now) keys.now) }
{
    let mut commands = Vec::new(alloc);
    for key in keys {
        if let Some(submission) = submitted.get(*key) {
            commands.push(submission.command.copy()?)?;
        }
    }
    Ok(commands)
}
