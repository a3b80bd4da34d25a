ghost use Rattle.std.specs.Prelude.{◌≡◌, ◌∷◌, ◌++◌, ◌-◌, [], false, length, take, OnOk};
ghost use Rattle.std.specs.Option.{option_copied};
ghost use Rattle.object.specs.Keys.{stands, found, place_of, KeysOnce};
ghost use Rattle.object.specs.Results.{Becomes};

use object::{Key, KeyMap, Keyed};
use std::alloc::{AllocError, Global};
use std::marker::Model;

/// Items of different keys, in the order in which they came, and the place of each.
#[derive(Drop)]
pub(crate) struct KeyedList<X: Keyed + Drop> {
    items: Vec<X>,
    places: KeyMap<usize>,
}

impl<X: Keyed + Drop> Model for KeyedList<X> {
    ghost use Rattle.std.specs.Prelude.{List};
    ghost use Rattle.std.specs.Coded.{codes};
    ghost use Rattle.recorder.specs.Kept.{IsIndexed};

    ghost Value = { List X };

    ghost coded = { Prim.hlevel (codes, X.code) };

    ghost view = { λ l. l.items.items };

    ghost invariant = { λ l. IsIndexed X.key_of l.places l.items.items };
}

impl<X: Keyed + Drop> KeyedList<X> {
    /// No items.
    pub(crate) fn new(alloc: Global) -> KeyedList<X>
        ensures { result ≡ [] }
    {
        KeyedList {
            items: Vec::new(alloc),
            places: KeyMap::new(alloc),
        }
    }

    /// The items.
    pub(crate) fn as_slice(&self) -> &[X]
        ensures items { result.now ≡ self.now }
        ensures once { KeysOnce X.key_of self.now }
    {
        self.items.as_slice()
    }

    /// Whether an item has the key.
    pub(crate) fn has(&self, key: Key) -> bool
        ensures { result ≡ stands X.key_of key self.now }
    {
        self.places.get(key).is_some()
    }

    /// The place of the item that has the key.
    pub(crate) fn place_of(&self, key: Key) -> Option<usize>
        ensures { result ≡ place_of X.key_of key self.now }
    {
        self.places.get(key)
    }

    /// The item that has the key.
    pub(crate) fn get(&self, key: Key) -> Option<&X>
        ensures { option_copied result ≡ found X.key_of key self.now }
    {
        let place = self.places.get(key)?;
        self.items.get(place)
    }

    /// Puts an item of a new key at the end.
    pub(crate) fn push(&mut self, item: X) -> Result<(), AllocError>
        requires { stands X.key_of (X.key_of item) self.old ≡ false }
        ensures ok { Becomes result self.old self.new (self.old ++ item ∷ []) }
        ensures once { OnOk result (KeysOnce X.key_of self.new) }
    {
        let place = self.items.len();
        self.items.reserve(1)?;
        self.places.insert(item.key(), place)?;
        self.items.push_reserved(item);
        Ok(())
    }

    /// Takes the last item away, where there is one.
    pub(crate) fn pop(&mut self)
        ensures { self.new ≡ take (length self.old - 1) self.old }
    {
        if let Some(item) = self.items.pop() {
            self.places.remove(item.key());
        }
    }
}
