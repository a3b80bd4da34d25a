use crate::body::Body;
use crate::name::Name;
use crate::names::Names;
use object::Value;
use std::alloc::AllocError;

/// What a queue answers. Replies that read alike are one value: `Using` answers two operations, and so does `Tubes`.
#[derive(Drop, PartialEq, Eq)]
pub enum Reply {
    /// The job was put, under this id.
    Inserted(u64),
    /// The tube that is used.
    Using(Name),
    /// How many tubes are watched.
    Watching(u64),
    /// The tube is the only one that is watched.
    NotIgnored,
    /// The session has this job now.
    Reserved { id: u64, body: Body },
    /// A job that the session has is due within a second.
    DeadlineSoon,
    /// No job came in time.
    TimedOut,
    Deleted,
    NotFound,
    Released,
    Buried,
    Touched,
    /// So many jobs are ready again.
    KickedCount(u64),
    /// The job is ready again.
    Kicked,
    /// The job that was looked for.
    Found { id: u64, body: Body },
    /// The names of tubes.
    Tubes(Names),
    /// A report: the bytes of its text.
    Data(Body),
    /// The tube is paused, or no longer.
    Paused,
    /// The queue has no number left to give.
    InternalError,
}

impl Value for Reply {
    ghost use Rattle.std.specs.Prelude.{◌≡◌, true, List, ℕ};
    ghost use Rattle.std.proofs.Common.{rules};
    ghost use Rattle.std.proofs.lemmas.Grind.{common_steps};
    ghost use Rattle.bean_words.specs.NameLists.{same_names, same_names-exact};

    ghost exact = { let names : (x y : List (List ℕ)) → same_names x y ≡ true → x ≡ y = same_names-exact in
        Prim.grind (rules, common_steps, names) };

    fn copy(&self) -> Result<Self, AllocError> {
        Ok(match self {
            Reply::Inserted(id) => Reply::Inserted(*id),
            Reply::Using(tube) => Reply::Using(tube.copy()?),
            Reply::Watching(count) => Reply::Watching(*count),
            Reply::NotIgnored => Reply::NotIgnored,
            Reply::Reserved { id, body } => Reply::Reserved {
                id: *id,
                body: body.copy()?,
            },
            Reply::DeadlineSoon => Reply::DeadlineSoon,
            Reply::TimedOut => Reply::TimedOut,
            Reply::Deleted => Reply::Deleted,
            Reply::NotFound => Reply::NotFound,
            Reply::Released => Reply::Released,
            Reply::Buried => Reply::Buried,
            Reply::Touched => Reply::Touched,
            Reply::KickedCount(count) => Reply::KickedCount(*count),
            Reply::Kicked => Reply::Kicked,
            Reply::Found { id, body } => Reply::Found {
                id: *id,
                body: body.copy()?,
            },
            Reply::Tubes(names) => Reply::Tubes(names.copy()?),
            Reply::Data(text) => Reply::Data(text.copy()?),
            Reply::Paused => Reply::Paused,
            Reply::InternalError => Reply::InternalError,
        })
    }
}
