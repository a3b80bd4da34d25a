ghost use Rattle.std.specs.Prelude.{◌≡◌, ◌^◌, IfOk, OnOk, OnErr, length};
ghost use Rattle.job_store.specs.Entries.{Rising, altered};
ghost use Rattle.session_store.specs.Sessions.{session_of, with_wait, with_role};
ghost use Rattle.session_store.specs.Drafts.{IsThere};
ghost use Rattle.session_store.specs.WatchLists.{joined, left_out};

use crate::session::{Role, SessionState, Wait};
use bean_words::Name;
use std::alloc::AllocError;
use std::collections::BTreeMap;
use std::mem::replace;

/// Lets a session wait, or wait no longer, if it is there.
pub fn set_wait(sessions: &mut BTreeMap<u32, SessionState>, session: u32, wait: Option<Wait>)
    requires { Rising 0 (2 ^ 32) sessions.old.entries }
    ensures { sessions.new.entries ≡ altered session (with_wait wait) sessions.old.entries }
{
    if let Some(found) = sessions.get_mut(&session) {
        found.wait = wait;
    }
}

/// Gives a session a role, if it is there.
pub fn set_role(sessions: &mut BTreeMap<u32, SessionState>, session: u32, role: Role)
    requires { Rising 0 (2 ^ 32) sessions.old.entries }
    ensures { sessions.new.entries ≡ altered session (with_role role) sessions.old.entries }
{
    if let Some(found) = sessions.get_mut(&session) {
        found.role = role;
    }
}

/// Lets a session use a tube, if it is there, and gives back the one that it used.
pub fn set_used(
    sessions: &mut BTreeMap<u32, SessionState>,
    session: u32,
    name: Name,
) -> Option<Name>
    requires { Rising 0 (2 ^ 32) sessions.old.entries }
    ensures { sessions.new.entries
        ≡ altered session (λ c. record c { used = name }) sessions.old.entries }
{
    match sessions.get_mut(&session) {
        Some(found) => Some(replace(&mut found.used, name)),
        None => None,
    }
}

/// Lets a session that is there watch one tube more, and tells how many it watches then.
pub fn watch(
    sessions: &mut BTreeMap<u32, SessionState>,
    session: u32,
    name: Name,
) -> Result<usize, AllocError>
    requires { IsThere session sessions.old.entries }
    ensures count { IfOk result (λ count. count
        ≡ length (joined name (session_of session sessions.old.entries).watched)) }
    ensures ok { OnOk result
        (sessions.new.entries
        ≡ altered session
        (λ c. record c { watched = joined name c.watched }) sessions.old.entries) }
    ensures err { OnErr result (sessions.new.entries ≡ sessions.old.entries) }
{
    match sessions.get_mut(&session) {
        Some(found) => {
            found.watched.insert(name)?;
            Ok(found.watched.len())
        }
        None => unreachable!(),
    }
}

/// Lets a session that is there watch a tube no more, and tells how many it watches then.
pub fn ignore(sessions: &mut BTreeMap<u32, SessionState>, session: u32, name: &Name) -> usize
    requires { IsThere session sessions.old.entries }
    ensures count { result ≡ length
        (left_out name.now (session_of session sessions.old.entries).watched) }
    ensures sessions { sessions.new.entries
        ≡ altered session
        (λ c. record c { watched = left_out name.now c.watched }) sessions.old.entries }
{
    match sessions.get_mut(&session) {
        Some(found) => {
            found.watched.remove(name);
            found.watched.len()
        }
        None => unreachable!(),
    }
}
