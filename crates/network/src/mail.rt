ghost use Rattle.std.specs.Prelude.{◌≡◌, ◌++◌, ◌∷◌, [], drop, is_some, true, None, Some, IfOk, OnOk, OnErr, IfSome, IfNone, List};
ghost use Rattle.object.specs.Results.{Becomes};
ghost use Rattle.ballot.specs.declared.letter.Letter.{Letter};
ghost use Rattle.network.specs.Networks.{front};

use ballot::Letter;
use object::Value;
use std::alloc::{AllocError, Global};
use std::collections::VecDeque;
use std::marker::Model;

/// The letters that are on their way to one node, in the order in which they were sent.
#[derive(Drop)]
pub struct Mail<C: Value> {
    letters: VecDeque<Letter<C>>,
}

impl<C: Value> Model for Mail<C> {
    ghost use Rattle.std.specs.Prelude.{List};
    ghost use Rattle.std.specs.Coded.{codes};
    ghost use Rattle.ballot.specs.Slots.{slots_code};
    ghost use Rattle.ballot.specs.declared.letter.Letter.{Letter};

    ghost Value = { List (Letter C) };

    ghost coded = { Prim.hlevel (codes, C.code) };

    ghost view = { λ m. m.letters.items };
}

impl<C: Value> Mail<C> {
    /// No letters.
    pub fn new(alloc: Global) -> Mail<C>
        ensures { result ≡ [] }
    {
        Mail {
            letters: VecDeque::new(alloc),
        }
    }

    /// Takes the first of these letters to its back.
    pub fn take_first(&mut self, letters: &mut VecDeque<Letter<C>>) -> Result<(), AllocError>
        requires { is_some (front letters.old.items) ≡ true }
        ensures ok { OnOk result ((l : Letter C) → (ls : List (Letter C))
            → letters.old.items ≡ l ∷ ls
            → (self.new ≡ self.old ++ (l ∷ [])) × (letters.new.items ≡ ls)) }
        ensures err { OnErr result ((self.new ≡ self.old)
            × (letters.new.items ≡ letters.old.items)) }
    {
        self.letters.reserve(1)?;
        if let Some(letter) = letters.pop_front() {
            self.letters.push_back(letter)?;
        }
        Ok(())
    }

    /// Whether it has letters.
    pub fn has_letters(&self) -> bool
        ensures { result ≡ is_some (front self.now) }
    {
        self.letters.front().is_some()
    }

    /// The letter in front.
    pub fn front(&self) -> Option<&Letter<C>>
        ensures some { IfSome result (λ letter. front self.now ≡ Some letter.now) }
        ensures none { IfNone result (front self.now ≡ None) }
    {
        self.letters.front()
    }

    /// A copy of the letter in front.
    pub fn copy_front(&self) -> Result<Option<Letter<C>>, AllocError>
        ensures { IfOk result (λ letter. letter ≡ front self.now) }
    {
        match self.front() {
            None => Ok(None),
            Some(letter) => Ok(Some(letter.copy()?)),
        }
    }

    /// Drops the letter in front, where there is one; and tells whether there was.
    pub fn drop_front(&mut self) -> bool
        ensures does { result ≡ is_some (front self.old) }
        ensures left { self.new ≡ drop 1 self.old }
    {
        self.letters.pop_front().is_some()
    }

    /// Takes this letter to its back.
    pub fn push(&mut self, letter: Letter<C>) -> Result<(), AllocError>
        ensures ok { Becomes result self.old self.new (self.old ++ (letter ∷ [])) }
    {
        self.letters.push_back(letter)?;
        Ok(())
    }
}
