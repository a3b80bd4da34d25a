ghost use Rattle.std.specs.Prelude.{◌≡◌, ◌==◌, [], length, IfOk, IfErr, IsSome, OnOk, OnErr};
ghost use Rattle.object.specs.NumberMaps.{Rises, IsAt, IsGapFor, Sets, Lacks, value_of};

use std::alloc::{AllocError, Global};
use std::marker::Model;

/// Values by number, in one list in which the numbers rise. What is asked for most, the greatest number, is found
/// without a search.
#[derive(Drop)]
pub(crate) struct NumberMap<V: Copy> {
    pairs: Vec<(u64, V)>,
}

impl<V: Copy> Model for NumberMap<V> {
    ghost use Rattle.std.specs.Prelude.{List, ℕ};
    ghost use Rattle.std.specs.Coded.{codes};
    ghost use Rattle.object.specs.NumberMaps.{Rises};

    ghost Value = { List (ℕ × V) };

    ghost coded = { Prim.hlevel (codes, V.code) };

    ghost view = { λ m. m.pairs.items };

    ghost invariant = { λ m. Rises m.pairs.items };
}

impl<V: Copy> Clone for NumberMap<V> {
    ghost is_clone = { λ m n. n ≡ m };

    fn clone(&self) -> Result<Self, AllocError> {
        self.copy()
    }
}

impl<V: Copy> NumberMap<V> {
    /// No values.
    pub(crate) fn new(alloc: Global) -> NumberMap<V>
        ensures { result ≡ [] }
    {
        NumberMap {
            pairs: Vec::new(alloc),
        }
    }

    /// The same values once more.
    pub(crate) fn copy(&self) -> Result<NumberMap<V>, AllocError>
        ensures { IfOk result (λ copy. copy ≡ self.now) }
    {
        let pairs = Vec::from_slice(*self.pairs.allocator(), self.pairs.as_slice())?;
        Ok(NumberMap { pairs })
    }

    /// The value of the number.
    pub(crate) fn get(&self, number: u64) -> Option<V>
        ensures { result ≡ value_of self.now number }
    {
        match self.search(number) {
            Ok(place) => Some(self.pairs[place].1),
            Err(_) => None,
        }
    }

    /// Gives the number this value, in the place of the one that it may have. It takes no memory where it has one.
    pub(crate) fn insert(&mut self, number: u64, value: V) -> Result<(), AllocError>
        ensures ok { OnOk result (Sets self.old self.new number value) }
        ensures err { OnErr result (self.new ≡ self.old) }
    {
        match self.search(number) {
            Ok(place) => self.pairs[place] = (number, value),
            Err(place) => self.pairs.insert(place, (number, value))?,
        }
        Ok(())
    }

    /// Gives a number that has a value this one.
    pub(crate) fn replace(&mut self, number: u64, value: V)
        requires { IsSome (value_of self.old number) }
        ensures { Sets self.old self.new number value }
    {
        match self.search(number) {
            Ok(place) => self.pairs[place] = (number, value),
            Err(_) => unreachable!(),
        }
    }

    /// Takes the number's value away.
    pub(crate) fn remove(&mut self, number: u64)
        ensures { Lacks self.old self.new number }
    {
        if let Ok(place) = self.search(number) {
            self.pairs.remove(place);
        }
    }

    /// Whether no number has a value.
    pub(crate) fn is_empty(&self) -> bool
        ensures { result ≡ (length self.now == 0) }
    {
        self.pairs.is_empty()
    }

    // Where the number is, or where it would go.
    fn search(&self, number: u64) -> Result<usize, usize>
        ensures found { IfOk result (IsAt self.now number) }
        ensures absent { IfErr result (IsGapFor self.now number) }
    {
        match self.pairs.last() {
            Some((last, _)) if *last < number => Err(self.pairs.len()),
            Some((last, _)) if *last == number => Ok(self.pairs.len() - 1),
            _ => self.search_all(number),
        }
    }

    // The same, wherever it is.
    fn search_all(&self, number: u64) -> Result<usize, usize>
        ensures found { IfOk result (IsAt self.now number) }
        ensures absent { IfErr result (IsGapFor self.now number) }
    {
        self.pairs.binary_search_by_key(&number, |&(n, _)| n)
    }
}
