ghost use Rattle.std.specs.Prelude.{◌≡◌, ◌<◌, ◌++◌, ◌&&◌, not, true, false, None, is_some, IsOk, IfOk, OnOk, vec_len, vec_capacity};
ghost use Rattle.std.specs.Option.{option_to_list};
ghost use Rattle.object.specs.Commands.{same_acts};
ghost use Rattle.object.specs.Keys.{same_key};
ghost use Rattle.object.specs.Happenings.{is_submitted};
ghost use Rattle.world.specs.Kept.{submission_by};
ghost use Rattle.world.specs.Refusals.{has_other_act};

use node::Deed;
use object::{Command, Key, Submission, Value};
use std::alloc::AllocError;

/// Whether the key was submitted.
pub(crate) fn is_submitted<Op: Value>(submitted: &[Submission<Op>], key: Key) -> bool
    ensures { result ≡ is_submitted key submitted.now }
{
    submitted.iter().any(|s| s.command.key() == key)
}

/// Whether the command's key was submitted with another act.
pub(crate) fn has_other_act<Op: Value>(submitted: &[Submission<Op>], command: &Command<Op>) -> bool
    ensures { result ≡ has_other_act Op.eq submitted.now command.now }
{
    submitted.iter().any(|s| is_other_act(&s.command, command))
}

// Whether two commands of one key have different acts.
fn is_other_act<Op: Value>(a: &Command<Op>, b: &Command<Op>) -> bool
    ensures { result ≡ (same_key a.now.key b.now.key && not (same_acts Op.eq a.now.act b.now.act)) }
{
    a.key() == b.key() && a.act() != b.act()
}

/// The submission that a deed brings after so many answers, or none. To tell that there is none takes no memory.
pub(crate) fn submission_by<Op: Value>(
    deed: &Deed<Op>,
    submitted: &[Submission<Op>],
    after: usize,
) -> Result<Option<Submission<Op>>, AllocError>
    ensures added { IfOk result (λ added. added ≡ submission_by deed.now submitted.now after) }
    ensures idle { submission_by deed.now submitted.now after ≡ None → IsOk result }
{
    match deed {
        Deed::Request(command) if !is_submitted(submitted, command.key()) => Ok(Some(Submission {
            command: command.copy()?,
            after,
        })),
        _ => Ok(None),
    }
}

/// Makes room for one more, where one comes.
pub(crate) fn make_room_if<T: Drop>(items: &mut Vec<T>, comes: bool) -> Result<(), AllocError>
    ensures kept { items.new.items ≡ items.old.items }
    ensures room { OnOk result (comes ≡ true → vec_len items.new < vec_capacity items.new) }
    ensures idle { comes ≡ false → IsOk result }
{
    if comes {
        items.reserve(1)?;
    }
    Ok(())
}

/// Puts one more at the end, where there is one, into the room that was made.
pub(crate) fn push_in_room<T: Drop>(items: &mut Vec<T>, item: Option<T>)
    requires { is_some item ≡ true → vec_len items.old < vec_capacity items.old }
    ensures { items.new.items ≡ items.old.items ++ option_to_list item }
{
    if let Some(item) = item {
        let _ = items.push(item);
    }
}
