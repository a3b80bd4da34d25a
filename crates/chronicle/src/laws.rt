ghost use Rattle.std.specs.Prelude.{◌≡◌, ℕ, Bool, List, map};
ghost use Rattle.object.specs.declared.command.Command.{Command};
ghost use Rattle.object.specs.Happenings.{SubmittedOnce};
ghost use Rattle.object.specs.Legal.{IsLegal};
ghost use Rattle.bean_queue.specs.Holds.{IsGivenOnce, IsHeldByOne};
ghost use Rattle.bean_queue.specs.Places.{queue_places};
ghost use Rattle.bean_words.specs.declared.op.Op.{Op};
ghost use Rattle.bean_words.specs.declared.reply.Reply.{Reply};
ghost use Rattle.recorder.specs.Chronicles.{Chronicle, IsChronicle};
ghost use Rattle.chronicle.specs.Checking.{IsFaultless, ordered_commands};
ghost use Rattle.bean_queue.specs.Effects.{queue_rules};
ghost use Rattle.chronicle.specs.CheckFaults.{IsFaultAt};
ghost use Rattle.chronicle.specs.declared.check_fault.What.{What};

use bean_queue::{one_answer, one_holder};

/// Where each line of a queue's dump is right, what happened is legal for the commands of its order.
/// No job is held by two sessions at once as a queue obeys these.
pub fn faultless_is_legal()
    ensures legal { (same : Op → Op → Bool) (c : Chronicle Op Reply) → IsChronicle c → IsFaultless c
        → IsLegal (queue_rules same) (record { submitted = c.submitted; answers = c.answers })
        (ordered_commands c) }
    ensures once { (c : Chronicle Op Reply) → IsGivenOnce (queue_places (ordered_commands c)) }
    ensures held { (c : Chronicle Op Reply) → IsHeldByOne (queue_places (ordered_commands c)) }
{
    one_answer();
    one_holder();
}

/// The other way round: what is legal for commands whose keys are the order has no fault, where no key was submitted
/// twice.
pub fn legal_is_faultless()
    ensures { (same : Op → Op → Bool) (c : Chronicle Op Reply) (commands : List (Command Op))
        → SubmittedOnce c.submitted → c.order ≡ map (λ d. d.key) commands
        → IsLegal (queue_rules same) (record { submitted = c.submitted; answers = c.answers })
        commands → IsFaultless c }
{}

/// A chronicle has one fault at most, and none where each line of its dump is right.
pub fn one_fault()
    ensures one { (c : Chronicle Op Reply) (n m : ℕ) (v w : What) → IsFaultAt c n v → IsFaultAt c m w
        → (n ≡ m) × (v ≡ w) }
    ensures none { (c : Chronicle Op Reply) (n : ℕ) (what : What) → IsFaultless c
        → IsFaultAt c n what → ⊥ }
{}
