ghost use Rattle.std.specs.Prelude.{IsTrue, ◌↔◌};
ghost use Rattle.object.specs.Happenings.{IsTimeline};

use object::{Answer, Submission};

/// Whether the submissions and the answers are one list in time: no submission comes before an earlier one, and none
/// after more answers than these.
pub fn is_timeline<Op, Reply>(submitted: &[Submission<Op>], answers: &[Answer<Reply>]) -> bool
    ensures { IsTrue result ↔
        IsTimeline (record { submitted = submitted.now; answers = answers.now }) }
{
    let given = answers.len();
    let mut before = 0;
    for submission in submitted {
        if submission.after < before || submission.after > given {
            return false;
        }
        before = submission.after;
    }
    true
}
