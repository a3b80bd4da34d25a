ghost use Rattle.std.specs.Prelude.{◌≡◌, ◌<◌, ◌+◌, ◌%◌, true, false};
ghost use Rattle.ballot.specs.Members.{is_member};
ghost use Rattle.rand_core.specs.Pcg32Seed.{pcg32_seed};
ghost use Rattle.rand_pcg.specs.Pcg.{pcg32, pcg32_of_seed};
ghost use Rattle.agreement.specs.Events.{is_at_member, is_sent};
ghost use Rattle.schedule.specs.Schedules.{submits, recent_letters, chosen_member, IsDrawnBy};

use agreement::Event;
use ballot::Members;
use object::Value;
use rand_core::SeedableRng;
use rand_core::utils::NextWord;
use rand_pcg::Lcg64Xsh32;
use std::marker::Model;

/// From how many of the last letters a new one is mostly chosen.
const LATE: u32 = 32;

/// The events of a world, as a seed draws them: letters are lost, repeated and reordered, and nodes restart. It is for
/// tests and simulations, and the same seed draws the same events.
#[derive(Drop)]
pub struct Schedule {
    words: Lcg64Xsh32,
}

impl Model for Schedule {
    ghost use Rattle.rand_pcg.specs.Lcg.{Lcg};

    ghost Value = { Lcg };

    ghost view = { λ s. s.words };

    ghost inverse = { λ g. record { words = g } };
}

impl Schedule {
    /// The schedule of this seed: PCG's words (XSH RR 64/32), seeded by the number.
    pub fn new(seed: u64) -> Schedule
        ensures { result ≡ pcg32_of_seed (pcg32_seed 16 seed) }
    {
        Schedule {
            words: Lcg64Xsh32::seed_from_u64(seed),
        }
    }

    /// A number below `n`: what is left of the next word.
    pub fn pick(&mut self, n: u32) -> u32
        requires { 0 < n }
        ensures below { result < n }
        ensures drawn { result ≡ (pcg32 self.old).0 % n }
        ensures next { self.new ≡ (pcg32 self.old).1 }
    {
        self.words.next_word() % n
    }

    /// The next event of a world with these members and so many letters: the next word draws its kind, and the one after
    /// it the node or the letter. Mostly a late letter is delivered; a restart is the rarest. What clients submit is not
    /// drawn.
    pub fn next<Op: Value>(&mut self, members: Members, letters: usize) -> Event<Op>
        ensures never_submits { submits result ≡ false }
        ensures sent { is_sent letters result ≡ true }
        ensures member { is_at_member members result ≡ true }
        ensures drawn { IsDrawnBy members letters ((pcg32 self.old).0 % 256)
            (pcg32 (pcg32 self.old).1).0 result }
        ensures next { self.new ≡ (pcg32 (pcg32 self.old).1).1 }
    {
        let word = self.pick(256);
        if word < 216 && letters > 0 {
            return Event::Deliver(self.letter(letters, recent_letters(word)));
        }
        let node = self.member(members);
        match word {
            216..230 => Event::Perform(node),
            230..236 => Event::Nudge(node),
            236..240 => Event::Wake(node),
            240 => Event::Restart(node),
            _ => Event::Propose(node),
        }
    }

    // One of the last `recent` letters.
    fn letter(&mut self, letters: usize, recent: u32) -> usize
        requires sent { 0 < letters }
        requires open { 0 < recent }
        ensures sent { result < letters }
        ensures drawn { result + 1 + (pcg32 self.old).0 % recent % letters ≡ letters }
        ensures next { self.new ≡ (pcg32 self.old).1 }
    {
        let back = self.pick(recent) as usize % letters;
        letters - 1 - back
    }

    // One of the members.
    fn member(&mut self, members: Members) -> u8
        ensures member { is_member members result ≡ true }
        ensures drawn { result ≡ chosen_member members (pcg32 self.old).0 }
        ensures next { self.new ≡ (pcg32 self.old).1 }
    {
        let before = self.pick(u32::from(members.count()));
        before as u8 + 1
    }
}

// From how many of the last letters this word chooses.
fn recent_letters(word: u32) -> u32
    ensures open { 0 < result }
    ensures drawn { result ≡ recent_letters word }
{
    if word < 208 { LATE } else { u32::MAX }
}
