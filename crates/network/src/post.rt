ghost use Rattle.std.specs.Prelude.{◌≡◌, ◌++◌, ◌∷◌, [], length, drop, is_some, None, Some, IsOk, IfOk, OnOk, OnErr};
ghost use Rattle.ballot.specs.declared.letter.Letter.{Letter};
ghost use Rattle.network.specs.Networks.{posted, front, put_mail};
ghost use Rattle.network.specs.Posting.{IsAmong, IsPost, on_way};

use crate::mail::Mail;
use crate::sorting::{drop_first, has_any, sort};
use ballot::Letter;
use object::Value;
use std::alloc::{AllocError, Global};

/// Whether a letter is on its way to a node: it is in the node's mail, or wasn't sorted into it yet.
pub fn has_mail<C: Value>(mails: &[Mail<C>], fresh: &[Letter<C>], id: u8) -> bool
    requires { IsAmong (length mails.now) id }
    ensures { result ≡ is_some (front (on_way mails.now fresh.now id)) }
{
    mails[usize::from(id - 1)].has_letters() || has_any(fresh, id)
}

/// Copies the letter in front of a node's mail to its back; false where there is none, which takes no memory.
pub fn repeat<C: Value>(
    alloc: Global,
    mails: &mut Vec<Mail<C>>,
    fresh: &mut Vec<Letter<C>>,
    id: u8,
) -> Result<bool, AllocError>
    requires among { IsAmong (length mails.old.items) id }
    requires post { IsPost mails.old.items fresh.old.items }
    ensures came { IfOk result (λ came. came
        ≡ is_some (front (on_way mails.old.items fresh.old.items id))) }
    ensures ok { OnOk result ((l : Letter C)
        → front (on_way mails.old.items fresh.old.items id) ≡ Some l
        → posted fresh.new.items mails.new.items
        ≡ put_mail (posted fresh.old.items mails.old.items) id
        (on_way mails.old.items fresh.old.items id ++ (l ∷ []))) }
    ensures none { OnOk result (front (on_way mails.old.items fresh.old.items id) ≡ None
        → posted fresh.new.items mails.new.items ≡ posted fresh.old.items mails.old.items) }
    ensures idle { front (on_way mails.old.items fresh.old.items id) ≡ None → IsOk result }
    ensures err { OnErr result (posted fresh.new.items mails.new.items
        ≡ posted fresh.old.items mails.old.items) }
    ensures size { length mails.new.items ≡ length mails.old.items }
    ensures post { IsPost mails.new.items fresh.new.items }
{
    if !has_mail(mails, fresh, id) {
        return Ok(false);
    }
    sort(alloc, mails, fresh)?;
    let place = usize::from(id - 1);
    let Some(letter) = mails[place].copy_front()? else {
        return Ok(false);
    };
    mails[place].push(letter)?;
    Ok(true)
}

/// Drops the letter in front of a node's mail; false where there is none.
pub fn lose<C: Value>(mails: &mut Vec<Mail<C>>, fresh: &mut Vec<Letter<C>>, id: u8) -> bool
    requires among { IsAmong (length mails.old.items) id }
    requires post { IsPost mails.old.items fresh.old.items }
    ensures lost { result ≡ is_some (front (on_way mails.old.items fresh.old.items id)) }
    ensures left { posted fresh.new.items mails.new.items
        ≡ put_mail (posted fresh.old.items mails.old.items) id
        (drop 1 (on_way mails.old.items fresh.old.items id)) }
    ensures size { length mails.new.items ≡ length mails.old.items }
    ensures post { IsPost mails.new.items fresh.new.items }
{
    let place = usize::from(id - 1);
    if mails[place].drop_front() {
        return true;
    }
    drop_first(fresh, id)
}
