ghost use Rattle.std.specs.Prelude.{◌≡◌, IsSome, IfOk};
ghost use Rattle.job_store.specs.Entries.{value_at};
ghost use Rattle.bean_queue.specs.Queue.{used_by, watched_by};
ghost use Rattle.bean_queue.specs.Tubes.{all_tubes};

use crate::logic::Logic;
use bean_words::{Name, Names};
use job_store::JobMap;
use object::Value;
use std::alloc::{AllocError, Global};
use std::collections::BTreeSet;

impl<M: JobMap> Logic<M> {
    /// The tube that a session uses.
    pub fn used(&self, session: u32) -> Result<Name, AllocError>
        requires { IsSome (value_at session self.now.now.sessions) }
        ensures { IfOk result (λ name. name ≡ used_by self.now.now session) }
    {
        self.session(session).used.copy()
    }

    /// The tubes that a session watches.
    pub fn watched(&self, alloc: Global, session: u32) -> Result<Names, AllocError>
        requires { IsSome (value_at session self.now.now.sessions) }
        ensures { IfOk result (λ names. names ≡ watched_by self.now.now session) }
    {
        Names::copy_of(alloc, self.session(session).watched.as_slice())
    }

    /// The names of all tubes.
    pub fn tube_names(&self, alloc: Global) -> Result<BTreeSet<Name>, AllocError>
        ensures { IfOk result (λ names. names.keys ≡ all_tubes self.now.now) }
    {
        let mut names = BTreeSet::new(alloc);
        names.insert(Name::default_tube())?;
        self.jobs.map().add_tubes(&mut names)?;
        self.sessions.add_tubes(&mut names)?;
        // Gives the proof that the names are in order.
        let _ = names.len();
        Ok(names)
    }

    /// All tubes, in the order of their names.
    pub fn tubes(&self, alloc: Global) -> Result<Names, AllocError>
        ensures { IfOk result (λ names. names ≡ all_tubes self.now.now) }
    {
        let mut tubes = Names::new(alloc);
        for name in self.tube_names(alloc)? {
            tubes.push(name)?;
        }
        Ok(tubes)
    }
}
