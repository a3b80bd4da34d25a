ghost use Rattle.std.specs.Prelude.{◌≡◌, IfOk};
ghost use Rattle.chronicle_text.specs.Drafts.{next};
ghost use Rattle.chronicle_text.specs.Entries.{IsEntryValue};

use crate::entry::Entry;
use crate::version::Version;
use ballot::Members;
use bean_words::{Op, Reply};
use recorder::Chronicle;
use std::alloc::{AllocError, Global};

/// A chronicle as it is read, line by line.
#[derive(Drop)]
pub enum ChronicleDraft {
    /// Nothing was read.
    Start,
    /// The first line was read: it has this version, and the count of members comes next.
    Head(Version),
    /// The count of members was read, and their weights come next.
    Counted(u8),
    /// What happened comes next.
    Happenings(Chronicle<Op, Reply>),
    /// The first command that counted was read: more of them come next, or the last line.
    Order(Chronicle<Op, Reply>),
    /// The last line was read.
    Whole(Chronicle<Op, Reply>),
}

impl ChronicleDraft {
    /// The draft with one line more, if this line may come next.
    pub fn next(self, alloc: Global, entry: Entry) -> Result<Option<ChronicleDraft>, AllocError>
        requires { IsEntryValue entry }
        ensures { IfOk result (λ draft. draft ≡ next self entry) }
    {
        match self {
            ChronicleDraft::Start => Ok(after_nothing(entry)),
            ChronicleDraft::Head(version) => Ok(after_version(alloc, version, entry)),
            ChronicleDraft::Counted(count) => Ok(after_count(alloc, count, entry)),
            ChronicleDraft::Happenings(chronicle) => after_happening(chronicle, entry),
            ChronicleDraft::Order(chronicle) => after_place(chronicle, entry),
            ChronicleDraft::Whole(_) => Ok(None),
        }
    }
}

// The first line is the version.
fn after_nothing(entry: Entry) -> Option<ChronicleDraft>
    ensures { result ≡ next ChronicleDraft.Start entry }
{
    match entry {
        Entry::Version(version) => Some(ChronicleDraft::Head(version)),
        _ => None,
    }
}

// The second is the count of members. In version 1 each of them weighs 1.
fn after_version(alloc: Global, version: Version, entry: Entry) -> Option<ChronicleDraft>
    requires { IsEntryValue entry }
    ensures { result ≡ next (ChronicleDraft.Head version) entry }
{
    let Entry::Members(count) = entry else {
        return None;
    };
    match version {
        Version::One => {
            let members = Members::new(count)?;
            Some(ChronicleDraft::Happenings(Chronicle::begin(alloc, members)))
        }
        Version::Two => Some(ChronicleDraft::Counted(count)),
    }
}

// The third line of version 2 has a weight for each member, and not all of them are 1.
fn after_count(alloc: Global, count: u8, entry: Entry) -> Option<ChronicleDraft>
    ensures { result ≡ next (ChronicleDraft.Counted count) entry }
{
    let Entry::Weights(members) = entry else {
        return None;
    };
    if members.count() == count && !members.is_unweighted() {
        Some(ChronicleDraft::Happenings(Chronicle::begin(alloc, members)))
    } else {
        None
    }
}

// After what happened comes more of it, the first command that counted, or the end.
fn after_happening(
    mut chronicle: Chronicle<Op, Reply>,
    entry: Entry,
) -> Result<Option<ChronicleDraft>, AllocError>
    ensures { IfOk result (λ draft. draft ≡ next (ChronicleDraft.Happenings chronicle) entry) }
{
    match entry {
        Entry::Version(_) | Entry::Members(_) | Entry::Weights(_) => return Ok(None),
        Entry::Submitted(command) => chronicle.submit(command)?,
        Entry::Answered(answer) => chronicle.answer(answer)?,
        Entry::Placed(key) => {
            chronicle.place(key)?;
            return Ok(Some(ChronicleDraft::Order(chronicle)));
        }
        Entry::End => return Ok(Some(ChronicleDraft::Whole(chronicle))),
    }
    Ok(Some(ChronicleDraft::Happenings(chronicle)))
}

// After a command that counted comes another, or the end.
fn after_place(
    mut chronicle: Chronicle<Op, Reply>,
    entry: Entry,
) -> Result<Option<ChronicleDraft>, AllocError>
    ensures { IfOk result (λ draft. draft ≡ next (ChronicleDraft.Order chronicle) entry) }
{
    match entry {
        Entry::Placed(key) => {
            chronicle.place(key)?;
            Ok(Some(ChronicleDraft::Order(chronicle)))
        }
        Entry::End => Ok(Some(ChronicleDraft::Whole(chronicle))),
        _ => Ok(None),
    }
}
