ghost use Rattle.std.specs.Prelude.{◌≡◌, IsSome, IsOk};
ghost use Rattle.std.specs.FinMap.{empty, get, insert, remove, from_entries};
ghost use Rattle.object.specs.Results.{Becomes};

use std::alloc::{AllocError, Global};
use std::collections::BTreeMap;
use std::marker::Model;

/// The greatest number of each session so far.
#[derive(Drop)]
pub struct Latest {
    numbers: BTreeMap<u32, u64>,
}

impl Model for Latest {
    ghost use Rattle.object.specs.OnceOnly.{LatestNumbers, latest_code};
    ghost use Rattle.std.specs.FinMap.{from_entries};

    ghost Value = { LatestNumbers };

    ghost coded = { latest_code };

    ghost view = { λ l. from_entries l.numbers.entries };
}

impl Latest {
    /// No session has a number.
    pub fn new(alloc: Global) -> Latest
        ensures { result ≡ empty }
    {
        Latest {
            numbers: BTreeMap::new(alloc),
        }
    }

    /// These numbers, by session.
    pub fn from_map(numbers: BTreeMap<u32, u64>) -> Latest
        ensures { result ≡ from_entries numbers.entries }
    {
        Latest { numbers }
    }

    /// The numbers, by session.
    pub fn numbers(&self) -> &BTreeMap<u32, u64>
        ensures { from_entries result.now.entries ≡ self.now }
    {
        &self.numbers
    }

    /// The session's number.
    pub fn get(&self, session: u32) -> Option<u64>
        ensures { result ≡ get self.now session }
    {
        self.numbers.get(&session).copied()
    }

    /// Gives the session this number. It takes no memory where the session has one.
    pub fn set(&mut self, session: u32, number: u64) -> Result<(), AllocError>
        ensures ok { Becomes result self.old self.new (insert self.old session number) }
        ensures known { IsSome (get self.old session) → IsOk result }
    {
        self.numbers.insert(session, number)?;
        Ok(())
    }

    /// Takes the session's number away.
    pub fn forget(&mut self, session: u32)
        ensures { self.new ≡ remove self.old session }
    {
        self.numbers.remove(&session);
    }
}
