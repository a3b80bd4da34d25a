ghost use Rattle.std.specs.Prelude.{◌≡◌, ◌+◌, ◌<◌, ◌^◌, ◌++◌, ◌↔◌, map, length, true, IfOk, IfErr, OnOk};
ghost use Rattle.object.specs.Happenings.{submitted_key};
ghost use Rattle.object.specs.OnceOnly.{is_later, filtered, filtered_answers};
ghost use Rattle.chronicle.specs.Checking.{AreRightPlaces};
ghost use Rattle.chronicle_text.specs.Dump.{first_line};
ghost use Rattle.chronicle_text.specs.Happenings.{happenings};
ghost use Rattle.chronicle.specs.Replaying.{HasFirstPlaces, AreGiven, IsOrderFault, placed, queue_after, queue_answers};

use crate::check_fault::{CheckFault, What};
use bean_queue::Queue;
use bean_words::{Op, Reply};
use chronicle_text::first_line;
use object::{Answer, Command, Effect, Key, Keyed, Once, filter_remembers};
use recorder::Chronicle;
use std::alloc::{AllocError, Global};
use std::collections::BTreeMap;

/// An answer of the queue, and the place of the command that brought it.
#[derive(Drop)]
pub(crate) struct Given {
    pub(crate) place: usize,
    pub(crate) answer: Answer<Reply>,
}

/// What is given stands under the key that it answers.
impl Keyed for Given {
    ghost key_of = { λ g. g.answer.to };

    fn key(&self) -> Key {
        self.answer.to
    }
}

/// Lets the queue obey the commands of the order, and gives its answers; or tells the first wrong place.
pub(crate) fn obey_order(
    alloc: Global,
    chronicle: &Chronicle<Op, Reply>,
    firsts: &BTreeMap<Key, usize>,
) -> Result<Vec<Given>, CheckFault>
    requires { HasFirstPlaces submitted_key chronicle.now.submitted firsts.now }
    ensures right { OnOk result (AreRightPlaces chronicle.now chronicle.now.order) }
    ensures given { IfOk result (λ given. AreGiven chronicle.now given.items) }
    ensures at { IfErr result (IsOrderFault chronicle.now) }
{
    filter_remembers::<Op>();
    let submitted = chronicle.submitted();
    let first_line = first_order_line(chronicle);
    let mut queue = Once::<Queue>::new(alloc)?;
    let mut given = Vec::new(alloc);
    for (place, key) in chronicle.order().iter().enumerate() {
        let line = first_line + place as u64;
        let Some(first) = firsts.get(key) else {
            return Err(CheckFault::At(line, What::NotSubmitted));
        };
        match obey(
            alloc,
            &mut queue,
            &submitted[*first].command,
            place,
            &mut given,
        )? {
            Effect::Done => {}
            Effect::Stale => return Err(CheckFault::At(line, What::NotKept)),
        }
    }
    Ok(given)
}

/// Lets the queue obey a command, and puts its answers at the end with this place.
fn obey(
    alloc: Global,
    queue: &mut Once<Queue>,
    command: &Command<Op>,
    place: usize,
    given: &mut Vec<Given>,
) -> Result<Effect, AllocError>
    ensures done { IfOk result (λ effect. (effect
        ≡ Effect.Done) ↔ (is_later command.now.key queue.old.latest ≡ true)) }
    ensures state { OnOk result (queue.new ≡ filtered queue_after queue.old command.now) }
    ensures given { OnOk result (map placed given.new.items ≡ map placed given.old.items
        ++ map (λ a. record { place = place; answer = a })
        (filtered_answers queue_answers queue.old command.now)) }
{
    let mut answers = Vec::new(alloc);
    let effect = queue.apply(command, &mut answers)?;
    for answer in answers {
        given.push(Given { place, answer })?;
    }
    Ok(effect)
}

/// The number of the first O line, were there one.
fn first_order_line(chronicle: &Chronicle<Op, Reply>) -> u64
    ensures line { result ≡ first_line chronicle.now
        + length (happenings chronicle.now.submitted chronicle.now.answers) }
    ensures room { result + length chronicle.now.order < 2 ^ 64 }
{
    let _order = chronicle.order().len();
    let happened = chronicle.submitted().len() as u64 + chronicle.answers().len() as u64;
    first_line(chronicle) + happened
}
