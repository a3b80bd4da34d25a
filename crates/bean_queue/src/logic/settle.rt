ghost use Rattle.std.specs.Prelude.{◌≡◌, ◌∷◌, [], true};
ghost use Rattle.job_store.specs.LookUps.{is_among};
ghost use Rattle.bean_queue.specs.Rows.{settled};
ghost use Rattle.bean_queue.specs.Staying.{AreTubes};
ghost use Rattle.bean_queue.specs.Tubes.{all_tubes};

use crate::logic::Logic;
use bean_words::Name;
use job_store::JobMap;

impl<M: JobMap> Logic<M> {
    /// Takes the counts of a tube out, unless list-tubes names it or it is paused, and tells whether list-tubes names it.
    /// That can't be taken back.
    pub fn settle(&mut self, tube: &Name) -> bool
        ensures counts { self.new.now ≡ settled (tube.now ∷ []) self.old.now }
        ensures there { result ≡ is_among tube.now (all_tubes self.new.now) }
    {
        let there = self.is_tube(tube);
        if !there && !self.pauses.is_paused(tube) {
            self.tubes.forget_for_good(tube);
        }
        there
    }

    /// Takes the counts of these tubes out, but for those that list-tubes names or that are paused, and tells whether
    /// list-tubes names all of them. That can't be taken back.
    pub fn settle_all(&mut self, tubes: &[Name]) -> bool
        ensures counts { self.new.now ≡ settled tubes.now self.old.now }
        ensures there { result ≡ true → AreTubes tubes.now self.new.now }
    {
        let mut there = true;
        for tube in tubes {
            let one = self.settle(tube);
            there = there && one;
        }
        there
    }
}
