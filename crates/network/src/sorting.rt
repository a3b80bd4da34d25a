ghost use Rattle.std.specs.Prelude.{◌≡◌, [], length, drop, is_some, OnOk};
ghost use Rattle.network.specs.Networks.{posted, letters_to, front};
ghost use Rattle.network.specs.Posting.{IsPost, but_first};

use crate::mail::Mail;
use ballot::Letter;
use object::Value;
use std::alloc::{AllocError, Global};
use std::collections::VecDeque;
use std::mem;

/// Moves these letters to the back of their receivers' mail. Where memory is refused, the rest of them stays.
pub fn sort<C: Value>(
    alloc: Global,
    mails: &mut Vec<Mail<C>>,
    fresh: &mut Vec<Letter<C>>,
) -> Result<(), AllocError>
    requires { IsPost mails.old.items fresh.old.items }
    ensures same { posted fresh.new.items mails.new.items ≡ posted fresh.old.items mails.old.items }
    ensures size { length mails.new.items ≡ length mails.old.items }
    ensures post { IsPost mails.new.items fresh.new.items }
    ensures ok { OnOk result (fresh.new.items ≡ []) }
{
    if fresh.is_empty() {
        return Ok(());
    }
    let mut letters = VecDeque::from_vec(mem::replace(fresh, Vec::new(alloc)));
    let sorted = sort_each(mails, &mut letters);
    *fresh = letters.into_vec();
    sorted
}

// The same, of a queue.
fn sort_each<C: Value>(
    mails: &mut Vec<Mail<C>>,
    letters: &mut VecDeque<Letter<C>>,
) -> Result<(), AllocError>
    requires { IsPost mails.old.items letters.old.items }
    ensures same { posted letters.new.items mails.new.items
        ≡ posted letters.old.items mails.old.items }
    ensures size { length mails.new.items ≡ length mails.old.items }
    ensures post { IsPost mails.new.items letters.new.items }
    ensures ok { OnOk result (letters.new.items ≡ []) }
{
    for _ in 0..letters.len() {
        sort_first(mails, letters)?;
    }
    Ok(())
}

// Moves the first of these letters, where there is one.
fn sort_first<C: Value>(
    mails: &mut Vec<Mail<C>>,
    letters: &mut VecDeque<Letter<C>>,
) -> Result<(), AllocError>
    requires { IsPost mails.old.items letters.old.items }
    ensures same { posted letters.new.items mails.new.items
        ≡ posted letters.old.items mails.old.items }
    ensures size { length mails.new.items ≡ length mails.old.items }
    ensures post { IsPost mails.new.items letters.new.items }
    ensures ok { OnOk result (letters.new.items ≡ drop 1 letters.old.items) }
{
    let Some(first) = letters.front() else {
        return Ok(());
    };
    let place = usize::from(first.to - 1);
    mails[place].take_first(letters)?;
    Ok(())
}

/// Drops the first of these letters that is to this node, where there is one; and tells whether there was.
pub fn drop_first<C: Value>(letters: &mut Vec<Letter<C>>, to: u8) -> bool
    ensures does { result ≡ is_some (front (letters_to to letters.old.items)) }
    ensures left { letters.new.items ≡ but_first to letters.old.items }
{
    for place in 0..letters.len() {
        if letters[place].to == to {
            letters.remove(place);
            return true;
        }
    }
    false
}

/// Whether one of these letters is to this node.
pub fn has_any<C: Value>(letters: &[Letter<C>], to: u8) -> bool
    ensures { result ≡ is_some (front (letters_to to letters.now)) }
{
    for place in 0..letters.len() {
        if letters[place].to == to {
            return true;
        }
    }
    false
}
