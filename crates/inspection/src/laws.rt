ghost use Rattle.std.specs.Prelude.{◌≡◌, ℕ, Bool, List};
ghost use Rattle.object.specs.Happenings.{SubmittedOnce};
ghost use Rattle.bean_queue.specs.Holds.{HasOneHolder};
ghost use Rattle.bean_words.specs.declared.op.Op.{Op};
ghost use Rattle.bean_words.specs.declared.reply.Reply.{Reply};
ghost use Rattle.chronicle.specs.Checking.{IsFaultless};
ghost use Rattle.bean_queue.specs.Effects.{queue_rules};
ghost use Rattle.hall.specs.Explained.{IsExplained};
ghost use Rattle.hall.specs.Halls.{HallState, chronicle_of};
ghost use Rattle.inspection.specs.Verdicts.{IsVerdict};
ghost use Rattle.inspection.specs.declared.verdict.Verdict.{Verdict};

use chronicle::{legal_is_faultless, one_fault};
use chronicle_text::{one_bad_line, one_dump};
use log_file::kept_is_read;

/// The dump of a hall of queues has no fault: `Hall::dump` ensures what this asks for.
pub fn no_fault_in_a_dump()
    ensures { (same : Op → Op → Bool) (h : HallState Op Reply)
        → IsExplained (queue_rules same) HasOneHolder h.nodes.past
        → SubmittedOnce h.nodes.past.happenings.submitted → IsFaultless (chronicle_of h) }
{
    legal_is_faultless();
}

/// One thing at most is found of a text: its counts, or its fault, or its bad line; or as a log, what it has, or the line in
/// which it is damaged.
pub fn one_verdict()
    ensures { (text : List ℕ) (v w : Verdict) → IsVerdict text v → IsVerdict text w → v ≡ w }
{
    one_dump();
    one_fault();
    one_bad_line();
    kept_is_read();
}
