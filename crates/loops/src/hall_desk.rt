ghost use Rattle.std.specs.Prelude.{◌≡◌, ◌≤◌, [], true, false, length, sum, All, IfOk, IfSome};
ghost use Rattle.counted_hall.specs.Marks.{is_free, with_mark};
ghost use Rattle.hall.specs.Halls.{Agrees};

use bean_words::{Op, Reply};
use conversation::Desk;
use counted_hall::mark;
use event_loops::{LoopDesk, ServeFault};
use hall::{Hall, HallError, Ticket};
use object::{Act, Command, Object};
use std::alloc::{AllocError, Global};
use turns::{Watch, halls_go_on, settle};

/// The desk of a hall that keeps all: where sessions hand in, and where their tickets are compared with the hall at their end.
#[derive(Drop)]
pub(crate) struct HallDesk<O: Object> {
    hall: Hall<O>,
    /// The node at which is handed in.
    node: u8,
    /// So many commands were handed in.
    handed_in: u64,
    /// A mark for each session, set where its ticket agreed with the hall at its end.
    compared: Vec<bool>,
    /// So many acts those tickets have that agreed.
    acts: u64,
    /// So many answers were told to the loops.
    told: usize,
    /// There is a log, and so many commands that took effect were taken for it.
    logs: bool,
    taken: u64,
    ghost marked: { length compared.items ≡ length hall.book },
    ghost counted: { sum hall.book ≡ handed_in },
    ghost within: { taken ≤ length hall.nodes.past.order },
}

impl<O: Object> HallDesk<O> {
    /// A hall in which no session was opened yet, without a log.
    pub(crate) fn new(alloc: Global, hall: Hall<O>) -> HallDesk<O>
        requires none { hall.book ≡ [] }
        ensures hall { result.hall ≡ hall }
        ensures logs { result.logs ≡ false }
    {
        HallDesk {
            hall,
            node: 1,
            handed_in: 0,
            compared: Vec::new(alloc),
            acts: 0,
            told: 0,
            logs: false,
            taken: 0,
        }
    }

    /// A hall in which sessions were there before, with a log, which has all that took effect there. These tickets of
    /// theirs are compared with it. What was answered is not told.
    pub(crate) fn over(
        alloc: Global,
        hall: Hall<O>,
        tickets: &[Ticket<O>],
    ) -> Result<HallDesk<O>, ServeFault>
        ensures hall { IfOk result (λ desk. desk.hall ≡ hall) }
        ensures logs { IfOk result (λ desk. desk.logs ≡ true) }
        ensures taken { IfOk result (λ desk. desk.taken ≡ length hall.nodes.past.order) }
        ensures told { IfOk result (λ desk. desk.told ≡ length hall.nodes.past.happenings.answers) }
    {
        let handed_in = sum_of(hall.book()).ok_or(ServeFault::BadNumber)?;
        let told = hall.answer_count();
        let taken = hall.placed_count();
        let compared = unset(alloc, hall.book().len())?;
        let mut desk = HallDesk {
            hall,
            node: 1,
            handed_in,
            compared,
            acts: 0,
            told,
            logs: true,
            taken,
        };
        for ticket in tickets {
            desk.compare(ticket);
        }
        Ok(desk)
    }

    /// A session hands in nothing more: its ticket is compared with the hall.
    pub(crate) fn compare(&mut self, ticket: &Ticket<O>)
        ensures agrees { Agrees self.old.hall ticket.now
            → is_free self.old.compared.items ticket.now.session ≡ true
            → self.new.compared.items ≡ with_mark self.old.compared.items ticket.now.session }
        ensures disagrees { ¬ (Agrees self.old.hall ticket.now) →
            (self.new.compared.items ≡ self.old.compared.items) × (self.new.acts ≡ self.old.acts) }
        ensures hall { self.new.hall ≡ self.old.hall }
        ensures logs { self.new.logs ≡ self.old.logs }
        ensures taken { self.new.taken ≡ self.old.taken }
        ensures told { self.new.told ≡ self.old.told }
    {
        let HallDesk {
            hall,
            compared,
            acts,
            ..
        } = self;
        if hall.agrees(ticket) && mark(compared.as_mut_slice(), ticket.session()) {
            *acts = acts.saturating_add(ticket.last_key().number);
        }
    }

    /// The hall, a mark for each session, set where its ticket agreed with the hall at its end, and how many acts those tickets
    /// have; and whether all agreed, and have as many acts as commands were handed in.
    pub(crate) fn into_hall(self) -> (Hall<O>, Vec<bool>, u64, bool)
        ensures hall { result.0 ≡ self.hall }
        ensures marked { length result.1.items ≡ length result.0.book }
        ensures agreed { result.3 ≡ true → All (λ mark. mark ≡ true) result.1.items }
        ensures handed_in { result.3 ≡ true → result.2 ≡ sum result.0.book }
    {
        let HallDesk {
            hall,
            compared,
            acts,
            handed_in,
            ..
        } = self;
        if acts != handed_in || !are_set(compared.as_slice()) {
            return (hall, compared, acts, false);
        }
        (hall, compared, acts, true)
    }
}

impl<O: Object<Op = Op, Reply = Reply>> Desk for HallDesk<O> {
    type Ticket = Ticket<O>;

    ghost use Rattle.std.specs.Prelude.{◌≡◌, ◌+◌, OnOk, OnErr};
    ghost use Rattle.hall.specs.Halls.{to_note};
    ghost use Rattle.turns.specs.Going.{HallGoesOn};

    // One command more was handed in, or none; and the hall goes on.
    ghost submits = { λ old ticket act result new. OnOk result (new.handed_in ≡ old.handed_in + 1)
        × OnErr result (new.handed_in ≡ old.handed_in)
        × HallGoesOn old.hall new.hall };

    ghost to_note = { λ desk ticket. to_note desk.hall ticket };

    fn submit(&mut self, ticket: &mut Ticket<O>, act: Act<Op>) -> Result<(), HallError> {
        halls_go_on::<O>();
        if self.handed_in == u64::MAX {
            return Err(HallError::Full);
        }
        let HallDesk {
            hall,
            handed_in,
            node,
            ..
        } = self;
        hall.submit(ticket, act, *node)?;
        *handed_in += 1;
        Ok(())
    }

    fn note(&self, ticket: &mut Ticket<O>) -> Result<bool, AllocError> {
        self.hall.note(ticket)
    }
}

impl<O: Object<Op = Op, Reply = Reply>> LoopDesk for HallDesk<O> {
    ghost use Rattle.std.specs.Prelude.{ℕ, ◌≡◌, ◌≤◌, ◌+◌, None, refl, length, if◌then◌else◌};
    ghost use Rattle.recorder.specs.Records.{commands_from};
    ghost use Rattle.turns.specs.Working.{no_work, work_of};
    ghost use Rattle.turns.specs.Going.{HallGoesOn};
    ghost use Rattle.turns.specs.GoingLaws.{stays, further};
    ghost use Rattle.loops.specs.Taking.{for_log};
    ghost use Rattle.loops.specs.LeadingLaws.{hall_goes};

    // By each session.
    ghost handed_in = { λ desk. desk.hall.book };

    ghost opened = { λ desk. length desk.hall.book };

    // Each client gets a new one, which keeps its ticket.
    ghost free = { λ desk. None };

    ghost clock = { λ desk. desk.hall.second };

    ghost taken = { λ desk. if desk.logs then desk.taken else 0 };

    // What the order has behind what was taken.
    ghost placed = { λ desk. for_log desk.logs (commands_from desk.taken desk.hall.nodes.past) };

    ghost is_calm = { λ desk. (n : ℕ) → 1 ≤ n → n ≤ length desk.hall.nodes.network.members
        → work_of desk.hall n ≡ no_work };

    // Its hall's state.
    ghost shows = { λ desk s. s.hall ≡ desk.hall };

    ghost leads = { λ s t. HallGoesOn s.hall t.hall };

    fn open_session(&mut self) -> Result<Ticket<O>, HallError> {
        halls_go_on::<O>();
        self.compared.reserve(1)?;
        let HallDesk { hall, compared, .. } = self;
        let ticket = hall.open_session()?;
        compared.push_reserved(false);
        Ok(ticket)
    }

    fn see_off(&mut self, ticket: &Ticket<O>) {
        self.compare(ticket);
    }

    fn stand_at(&mut self, node: u8) {
        self.node = node;
    }

    fn node_count(&self) -> u8 {
        self.hall.members().count()
    }

    fn last_second(&self) -> u64 {
        self.hall.last_second()
    }

    fn tick(&mut self, second: u64, node: u8) {
        halls_go_on::<O>();
        let HallDesk { hall, .. } = self;
        let _ = hall.tick(second, node);
    }

    fn take_turn(&mut self, watch: &mut Watch, round: u64) {
        let HallDesk { hall, .. } = self;
        let _ = watch.take_turn(hall, round);
    }

    fn settle(&mut self, first: u8) -> Result<bool, HallError> {
        let HallDesk { hall, .. } = self;
        settle(hall, first)
    }

    fn hand_in_again(&mut self, ticket: &Ticket<O>, node: u8) {
        halls_go_on::<O>();
        let HallDesk { hall, .. } = self;
        let _ = hall.resubmit(ticket, node);
    }

    fn next_answered(&mut self) -> Option<u32> {
        let HallDesk { hall, told, .. } = self;
        let key = hall.answered_key(*told)?;
        *told = told.saturating_add(1);
        Some(key.session)
    }

    fn placed_count(&self) -> u64
        ensures least { (if self.now.logs then self.now.taken else 0)
            + length (for_log self.now.logs (commands_from self.now.taken self.now.hall.nodes.past)) ≤ result }
        ensures exact { result ≡ (if self.now.logs then length self.now.hall.nodes.past.order else 0) }
    {
        if self.logs {
            self.hall.placed_count()
        } else {
            0
        }
    }

    fn take_placed(&mut self) -> Result<Vec<Command<Op>>, AllocError> {
        let mut placed = self.hall.placed_from(self.taken)?;
        if !self.logs {
            placed.clear();
        }
        self.taken = self.hall.placed_count();
        Ok(placed)
    }

    ghost stays = { λ s. stays s.hall s.hall refl };

    ghost further = { λ a b c first next. further a.hall b.hall c.hall first next };

    ghost submits_on = { λ old new ticket act result does. hall_goes old.hall new.hall does.2 };
}

// The sum of these numbers, where it is no greater than a u64.
fn sum_of(numbers: &[u64]) -> Option<u64>
    ensures { IfSome result (λ total. total ≡ sum numbers.now) }
{
    let mut total = 0u64;
    for number in numbers {
        total = total.checked_add(*number)?;
    }
    Some(total)
}

// So many marks, none of which is set.
fn unset(alloc: Global, count: usize) -> Result<Vec<bool>, AllocError>
    ensures { IfOk result (λ marks. length marks.items ≡ count) }
{
    vec![in alloc; false; count]
}

// Whether all marks are set.
fn are_set(marks: &[bool]) -> bool
    ensures { result ≡ true → All (λ mark. mark ≡ true) marks.now }
{
    for place in 0..marks.len() {
        if !marks[place] {
            return false;
        }
    }
    true
}
