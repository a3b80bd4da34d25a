ghost use Rattle.std.specs.Prelude.{◌≡◌, [], IfOk, IsSome, OnOk, OnErr};
ghost use Rattle.object.specs.declared.command.Key.{Key};
ghost use Rattle.object.specs.KeyMaps.{at_key, with_key, without_key};

use crate::command::Key;
use crate::number_map::NumberMap;
use std::alloc::{AllocError, Global};
use std::collections::BTreeMap;
use std::marker::Model;

/// A value for each of some keys. Those of a session stand in one list, by rising number, so a session's greatest key
/// is found at once.
#[derive(Drop)]
pub struct KeyMap<V: Copy> {
    alloc: Global,
    sessions: BTreeMap<u32, NumberMap<V>>,
}

impl<V: Copy> Model for KeyMap<V> {
    ghost use Rattle.std.specs.Prelude.{List, ℕ};
    ghost use Rattle.std.specs.Coded.{codes};

    ghost Value = { List (ℕ × List (ℕ × V)) };

    ghost coded = { Prim.hlevel (codes, V.code) };

    ghost view = { λ m. m.sessions.entries };
}

impl<V: Copy> KeyMap<V> {
    /// No values.
    pub fn new(alloc: Global) -> KeyMap<V>
        ensures { result ≡ [] }
    {
        KeyMap {
            alloc,
            sessions: BTreeMap::new(alloc),
        }
    }

    /// The same values once more.
    pub fn copy(&self) -> Result<KeyMap<V>, AllocError>
        ensures { IfOk result (λ copy. copy ≡ self.now) }
    {
        Ok(KeyMap {
            alloc: self.alloc,
            sessions: self.sessions.clone()?,
        })
    }

    /// The value of the key.
    pub fn get(&self, key: Key) -> Option<V>
        ensures { result ≡ at_key self.now key }
    {
        self.sessions.get(&key.session)?.get(key.number)
    }

    /// Gives the key this value, in the place of the one that it may have.
    pub fn insert(&mut self, key: Key, value: V) -> Result<(), AllocError>
        ensures ok { OnOk result ((q : Key)
            → at_key self.new q ≡ with_key (at_key self.old) key value q) }
        ensures err { OnErr result (self.new ≡ self.old) }
    {
        if let Some(numbers) = self.sessions.get_mut(&key.session) {
            numbers.insert(key.number, value)?;
            return Ok(());
        }
        let mut numbers = NumberMap::new(self.alloc);
        numbers.insert(key.number, value)?;
        self.sessions.insert(key.session, numbers)?;
        Ok(())
    }

    /// Gives a key that has a value this one. It takes no memory.
    pub fn replace(&mut self, key: Key, value: V)
        requires { IsSome (at_key self.old key) }
        ensures { (q : Key) → at_key self.new q ≡ with_key (at_key self.old) key value q }
    {
        match self.sessions.get_mut(&key.session) {
            Some(numbers) => numbers.replace(key.number, value),
            None => unreachable!(),
        }
    }

    /// Takes the key's value away. It takes no memory, and a session that has no value then keeps none.
    pub fn remove(&mut self, key: Key)
        ensures { (q : Key) → at_key self.new q ≡ without_key (at_key self.old) key q }
    {
        let Some(numbers) = self.sessions.get_mut(&key.session) else {
            return;
        };
        numbers.remove(key.number);
        if numbers.is_empty() {
            self.sessions.remove(&key.session);
        }
    }
}
