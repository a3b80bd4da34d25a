ghost use Rattle.object.specs.Results.{AddsAtEnd, WritesAtEnd};
ghost use Rattle.ballot.specs.Letters.{to_all};

use crate::ballot::Ballot;
use crate::members::Members;
use crate::pvalue::{Pvalue, Pvalues};
use crate::slot::Slot;
use object::Value;
use std::alloc::AllocError;

/// What a letter says.
#[derive(Drop, PartialEq, Eq)]
pub enum LetterBody<C> {
    /// A leader asks for a promise of its ballot.
    P1a(Ballot),
    /// An acceptor tells the ballot that it promised, and what it accepted.
    P1b(Ballot, Pvalues<C>),
    /// A leader asks to accept a pvalue.
    P2a(Pvalue<C>),
    /// An acceptor's vote: the ballot that it promised, and the ballot of the P2a that it answers.
    P2b {
        ballot: Option<Ballot>,
        slot: Slot,
        asked: Ballot,
    },
    /// A replica asks for a command in a slot.
    Propose(Slot, C),
    /// A command is decided for a slot.
    Decision(Slot, C),
    /// A replica asks for decisions, from this slot on.
    Ask(Slot),
}

/// A message from a node to a node.
#[derive(Drop, PartialEq, Eq)]
pub struct Letter<C> {
    pub from: u8,
    pub to: u8,
    pub body: LetterBody<C>,
}

impl<C: Value> Value for LetterBody<C> {
    ghost use Rattle.std.specs.Prelude.{◌≡◌, List, true};
    ghost use Rattle.std.proofs.Common.{rules};
    ghost use Rattle.std.proofs.lemmas.Grind.{common_steps};
    ghost use Rattle.ballot.specs.declared.pvalue.Pvalue.{Pvalue};
    ghost use Rattle.ballot.specs.PvalueLaws.{same_lists, same_lists-exact};

    ghost exact = { let lists : (x y : List (Pvalue C)) → same_lists C.eq x y ≡ true → x ≡ y = same_lists-exact C.exact in
        Prim.grind (rules, common_steps, C.exact, lists) };

    fn copy(&self) -> Result<Self, AllocError> {
        match self {
            LetterBody::P1a(ballot) => Ok(LetterBody::P1a(*ballot)),
            LetterBody::P1b(ballot, report) => Ok(LetterBody::P1b(*ballot, report.copy()?)),
            LetterBody::P2a(pvalue) => Ok(LetterBody::P2a(pvalue.copy()?)),
            LetterBody::P2b {
                ballot,
                slot,
                asked,
            } => Ok(LetterBody::P2b {
                ballot: *ballot,
                slot: *slot,
                asked: *asked,
            }),
            LetterBody::Propose(slot, command) => Ok(LetterBody::Propose(*slot, command.copy()?)),
            LetterBody::Decision(slot, command) => Ok(LetterBody::Decision(*slot, command.copy()?)),
            LetterBody::Ask(slot) => Ok(LetterBody::Ask(*slot)),
        }
    }
}

impl<C: Value> Value for Letter<C> {
    ghost use Rattle.std.specs.Prelude.{◌≡◌, List, true};
    ghost use Rattle.std.proofs.Common.{rules};
    ghost use Rattle.std.proofs.lemmas.Grind.{common_steps};
    ghost use Rattle.ballot.specs.declared.pvalue.Pvalue.{Pvalue};
    ghost use Rattle.ballot.specs.PvalueLaws.{same_lists, same_lists-exact};

    ghost exact = { let lists : (x y : List (Pvalue C)) → same_lists C.eq x y ≡ true → x ≡ y = same_lists-exact C.exact in
        Prim.grind (rules, common_steps, C.exact, lists) };

    fn copy(&self) -> Result<Self, AllocError> {
        Ok(Letter {
            from: self.from,
            to: self.to,
            body: self.body.copy()?,
        })
    }
}

/// Sends one body to all members, in rising number, the sender included. The last is sent the body itself, the others
/// copies. For want of memory nothing is sent.
pub fn send_to_all<C: Value>(
    members: Members,
    from: u8,
    body: LetterBody<C>,
    out: &mut Vec<Letter<C>>,
) -> Result<(), AllocError>
    ensures ok { AddsAtEnd result out.old out.new (to_all members from body) }
{
    let len = out.len();
    let sent = append_to_all(members, from, body, out);
    if sent.is_err() {
        out.truncate(len);
    }
    sent
}

/// The same, but for what was sent before memory ran out.
fn append_to_all<C: Value>(
    members: Members,
    from: u8,
    body: LetterBody<C>,
    out: &mut Vec<Letter<C>>,
) -> Result<(), AllocError>
    ensures ok { WritesAtEnd result out.old out.new (to_all members from body) }
{
    let last = members.count();
    for before in 0..last - 1 {
        out.push(Letter {
            from,
            to: before + 1,
            body: body.copy()?,
        })?;
    }
    out.push(Letter {
        from,
        to: last,
        body,
    })?;
    Ok(())
}
