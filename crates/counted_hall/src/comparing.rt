ghost use Rattle.std.specs.Prelude.{◌≡◌, ◌↔◌, true, false, None, Some, length, map};
ghost use Rattle.object.specs.Lists.{In};
ghost use Rattle.hall.specs.Halls.{Agrees};
ghost use Rattle.hall.specs.Tickets.{TicketState};
ghost use Rattle.counted_hall.specs.Accounts.{AreItsTickets, all_tickets, sessions_of};
ghost use Rattle.counted_hall.specs.Marks.{is_free, with_mark, with_marks};

use hall::{Hall, Ticket};
use object::Object;

/// Whether these are the tickets of the hall's sessions, one for each. There are as many as sessions were opened, and a
/// place for a mark for each session.
pub fn are_its_tickets<O: Object>(
    hall: &Hall<O>,
    tickets: &[Vec<Ticket<O>>],
    marks: &mut [bool],
) -> bool
    requires count { length hall.now.book ≡ length (all_tickets tickets.now) }
    requires marks { length marks.old ≡ length hall.now.book }
    ensures { (result ≡ true) ↔ AreItsTickets hall.now (all_tickets tickets.now) }
{
    marks.fill(false);
    all_agree(hall, tickets) && mark_all(tickets, marks)
}

// Whether each ticket agrees with the hall.
fn all_agree<O: Object>(hall: &Hall<O>, tickets: &[Vec<Ticket<O>>]) -> bool
    ensures { (result ≡ true) ↔ ((t : TicketState O.Op O.Reply)
        → In t (all_tickets tickets.now) → Agrees hall.now t) }
{
    for place in 0..tickets.len() {
        if !each_agrees(hall, tickets[place].as_slice()) {
            return false;
        }
    }
    true
}

// Whether each of these does.
fn each_agrees<O: Object>(hall: &Hall<O>, tickets: &[Ticket<O>]) -> bool
    ensures { (result ≡ true) ↔ ((t : TicketState O.Op O.Reply)
        → In t tickets.now → Agrees hall.now t) }
{
    for place in 0..tickets.len() {
        if !hall.agrees(&tickets[place]) {
            return false;
        }
    }
    true
}

// Marks the sessions of all tickets; false where one has no mark, or was marked already.
fn mark_all<O: Object>(tickets: &[Vec<Ticket<O>>], marks: &mut [bool]) -> bool
    ensures ok { result ≡ true →
        with_marks marks.old (sessions_of (all_tickets tickets.now)) ≡ Some marks.new }
    ensures none { result ≡ false →
        with_marks marks.old (sessions_of (all_tickets tickets.now)) ≡ None }
{
    for place in 0..tickets.len() {
        if !mark_each(tickets[place].as_slice(), marks) {
            return false;
        }
    }
    true
}

// Marks the sessions of these.
fn mark_each<O: Object>(tickets: &[Ticket<O>], marks: &mut [bool]) -> bool
    ensures ok { result ≡ true → with_marks marks.old (sessions_of tickets.now) ≡ Some marks.new }
    ensures none { result ≡ false → with_marks marks.old (sessions_of tickets.now) ≡ None }
{
    for place in 0..tickets.len() {
        if !mark(marks, tickets[place].session()) {
            return false;
        }
    }
    true
}

/// Marks a session; false where it has no mark, or is marked already.
pub fn mark(marks: &mut [bool], session: u32) -> bool
    ensures free { result ≡ is_free marks.old session }
    ensures ok { result ≡ true → marks.new ≡ with_mark marks.old session }
    ensures none { result ≡ false → marks.new ≡ marks.old }
{
    let Some(place) = (session as usize).checked_sub(1) else {
        return false;
    };
    if place >= marks.len() || marks[place] {
        return false;
    }
    marks[place] = true;
    true
}
