ghost use Rattle.std.specs.Prelude.{◌≡◌, Some, IsSome};
ghost use Rattle.job_store.specs.Entries.{value_at};
ghost use Rattle.bean_queue.specs.Rows.{use_row, watch_row, ignore_row};
ghost use Rattle.bean_queue.specs.Calls.{DoesRow};

use crate::logic::Logic;
use bean_words::{Name, Reply};
use job_store::JobMap;
use object::Value;
use std::alloc::AllocError;

impl<M: JobMap> Logic<M> {
    /// Lets a session that is there use a tube.
    #[tactic(auto, unfolding(crate::specs::Rows::use_row))]
    pub fn use_tube(&mut self, session: u32, tube: &Name) -> Result<Reply, AllocError>
        requires { IsSome (value_at session self.old.now.sessions) }
        ensures { DoesRow self.old self.new (use_row self.old.now session tube.now) result }
    {
        let shown = tube.copy()?;
        let left = self.session(session).used.copy()?;
        self.sessions.use_tube_for_good(session, tube.copy()?)?;
        self.settle(&left);
        Ok(Reply::Using(shown))
    }

    /// Lets a session that is there watch a tube.
    #[tactic(auto, unfolding(crate::specs::Rows::watch_row))]
    pub fn watch(&mut self, session: u32, tube: &Name) -> Result<Reply, AllocError>
        requires { IsSome (value_at session self.old.now.sessions) }
        ensures { DoesRow self.old self.new (watch_row self.old.now session tube.now) result }
    {
        let count = self.sessions.watch_for_good(session, tube.copy()?)?;
        Ok(Reply::Watching(count as u64))
    }

    /// Lets a session that is there watch a tube no more, unless it watches no other.
    #[tactic(auto, unfolding(crate::specs::Rows::ignore_row))]
    pub fn ignore(&mut self, session: u32, tube: &Name) -> Reply
        requires { IsSome (value_at session self.old.now.sessions) }
        ensures state { self.new.now ≡ (ignore_row self.old.now session tube.now).state }
        ensures reply { (ignore_row self.old.now session tube.now).reply ≡ Some result }
    {
        if self.session(session).watched.is_only(tube) {
            return Reply::NotIgnored;
        }
        let count = self.sessions.ignore_for_good(session, tube);
        self.settle(tube);
        Reply::Watching(count as u64)
    }
}
