ghost use Rattle.std.specs.Prelude.{◌≡◌, ◌⊎◌, ℕ, List};
ghost use Rattle.session_store.specs.Fronts.{AreFronts, front_of};
ghost use Rattle.session_store.specs.declared.session.SessionState.{SessionState};

use crate::place::LinePlace;
use bean_words::Name;
use object::Value;
use std::alloc::Global;
use std::collections::BTreeMap;

/// How far a command has gone through the lines of tubes, while it only ends waits: before the front of a tube nobody
/// waits for a job of it.
#[derive(Drop)]
pub struct Fronts {
    places: BTreeMap<Name, LinePlace>,
}

impl Fronts {
    /// The beginning of each line.
    pub(crate) fn new(alloc: Global) -> Fronts
        ensures { (sessions : List (ℕ × SessionState)) → AreFronts result sessions }
    {
        Fronts {
            places: BTreeMap::new(alloc),
        }
    }

    /// The front of a tube: the beginning of its line, where none was noted.
    pub(crate) fn front(&self, tube: &Name) -> LinePlace
        ensures { result ≡ front_of tube.now self.now }
    {
        match self.places.get(tube) {
            Some(place) => *place,
            None => LinePlace {
                order: 0,
                session: 0,
            },
        }
    }

    /// Notes the front of a tube, unless memory is refused.
    pub(crate) fn note(&mut self, tube: &Name, place: LinePlace)
        ensures { (t : List ℕ) → (front_of t self.new ≡ front_of t self.old)
            ⊎ ((t ≡ tube.now) × (front_of t self.new ≡ place)) }
    {
        if let Ok(name) = tube.copy() {
            let _ = self.places.insert(name, place);
        }
    }
}
