ghost use Rattle.std.specs.Prelude.{◌≡◌, nat_le, Some, Ok, IfOk};
ghost use Rattle.std.specs.List.{list_all};
ghost use Rattle.ballot.specs.Rests.{pvalues_from, if_from, rest_of_body};
ghost use Rattle.ballot.specs.declared.letter.LetterBody.{LetterBody};
ghost use Rattle.ballot.specs.declared.letter.LetterBody.TheVariants.{P1b};
ghost use Rattle.ballot.specs.Left.{what_is_left};
ghost use Rattle.ballot.specs.declared.left.Left.TheVariants.{All};

use crate::ballot::Ballot;
use crate::letter::LetterBody;
use crate::pvalue::{Pvalue, Pvalues};
use crate::slot::Slot;
use object::Value;
use std::alloc::{AllocError, Global};

/// What is left of a body from a base on.
#[derive(Drop)]
pub enum Left<C> {
    /// It speaks of an earlier slot alone.
    Nothing,
    /// It says nothing of earlier slots.
    All,
    /// A report without what it says of earlier slots.
    Part(LetterBody<C>),
}

/// What is left of a body from the base on. Only a part is copied, and what is left whole takes no memory.
pub fn left_of<C: Value>(
    alloc: Global,
    body: &LetterBody<C>,
    base: u64,
) -> Result<Left<C>, AllocError>
    ensures left { IfOk result (λ left. what_is_left body.now left ≡ rest_of_body base body.now) }
    ensures whole { rest_of_body base body.now ≡ Some body.now → result ≡ Ok All }
{
    match body {
        LetterBody::P1a(_) => Ok(Left::All),
        LetterBody::P1b(ballot, report) => left_of_report(alloc, *ballot, report, base),
        LetterBody::P2a(pvalue) => Ok(left_at(pvalue.slot, base)),
        LetterBody::P2b { slot, .. } => Ok(left_at(*slot, base)),
        LetterBody::Propose(slot, _) => Ok(left_at(*slot, base)),
        LetterBody::Decision(slot, _) => Ok(left_at(*slot, base)),
        LetterBody::Ask(_) => Ok(Left::All),
    }
}

// What is left of what is said of one slot.
fn left_at<C>(slot: Slot, base: u64) -> Left<C>
    ensures left { (body : LetterBody C) → what_is_left body result ≡ if_from base slot body }
    ensures whole { (body : LetterBody C) → if_from base slot body ≡ Some body → result ≡ All }
{
    if slot.number() < base {
        Left::Nothing
    } else {
        Left::All
    }
}

// What is left of a P1b.
fn left_of_report<C: Value>(
    alloc: Global,
    ballot: Ballot,
    report: &Pvalues<C>,
    base: u64,
) -> Result<Left<C>, AllocError>
    ensures left { IfOk result (λ left. what_is_left (P1b ballot report.now) left
        ≡ Some (P1b ballot (pvalues_from base report.now))) }
    ensures whole { pvalues_from base report.now ≡ report.now → result ≡ Ok All }
{
    if are_from(report.as_slice(), base) {
        return Ok(Left::All);
    }
    let kept = copies_from(alloc, report.as_slice(), base)?;
    Ok(Left::Part(LetterBody::P1b(ballot, Pvalues::from_vec(kept))))
}

// Whether all of these are of slots from the base on.
fn are_from<C>(pvalues: &[Pvalue<C>], base: u64) -> bool
    ensures { result ≡ list_all (λ p. nat_le base p.slot) pvalues.now }
{
    for place in 0..pvalues.len() {
        if pvalues[place].slot.number() < base {
            return false;
        }
    }
    true
}

// Copies of those of slots from the base on, in their order.
fn copies_from<C: Value>(
    alloc: Global,
    pvalues: &[Pvalue<C>],
    base: u64,
) -> Result<Vec<Pvalue<C>>, AllocError>
    ensures { IfOk result (λ copies. copies.items ≡ pvalues_from base pvalues.now) }
{
    let mut copies = Vec::new(alloc);
    for pvalue in pvalues {
        if pvalue.slot.number() >= base {
            copies.push(pvalue.copy()?)?;
        }
    }
    Ok(copies)
}
