ghost use Rattle.std.specs.Prelude.{OnOk};
ghost use Rattle.std.specs.List.{AllByRecursion, flat_map};
ghost use Rattle.object.specs.Results.{AddsAtEnd, WritesAtEnd};
ghost use Rattle.recorder.specs.Chronicles.{IsChronicle};
ghost use Rattle.chronicle_text.specs.Dump.{answer_line, order_line, happening_line, head_lines, dump_text};
ghost use Rattle.chronicle_text.specs.Happenings.{happenings};
ghost use Rattle.chronicle_text.specs.Lines.{text_of_lines};
ghost use Rattle.chronicle_text.specs.Values.{IsAnswerValue, IsChronicleValue, IsCommandValue, IsKeyValue};
ghost use Rattle.object.specs.Happenings.{IsTimeline};
ghost use Rattle.object.specs.declared.command.Submission.{Submission};
ghost use Rattle.bean_words.specs.declared.op.Op.{Op};

use crate::lines::{
    append_answer, append_end, append_members, append_place, append_submission, append_version,
    append_weights,
};
use crate::version::Version;
use ballot::Members;
use bean_words::{Op, Reply};
use object::{Answer, Key, Submission};
use recorder::Chronicle;
use std::alloc::AllocError;

/// What has a text of its own.
pub trait WriteText {
    /// Writes the text at the end. Where memory runs out, nothing is written.
    fn write_text(&self, out: &mut Vec<u8>) -> Result<(), AllocError>;
}

impl WriteText for Chronicle<Op, Reply> {
    /// Writes the text of the chronicle of a queue at the end. Where memory runs out, nothing is written.
    fn write_text(&self, out: &mut Vec<u8>) -> Result<(), AllocError>
        ensures ok { AddsAtEnd result out.old out.new (dump_text self.now) }
        ensures value { OnOk result (IsChronicleValue self.now) }
    {
        let len = out.len();
        let written = append_dump(self, out);
        if written.is_err() {
            out.truncate(len);
        }
        written
    }
}

/// Writes the text of a chronicle at the end. Where memory runs out, a part of it may stand there.
#[tactic(auto, unfolding(crate::specs::Dump::dump_text))]
fn append_dump(chronicle: &Chronicle<Op, Reply>, out: &mut Vec<u8>) -> Result<(), AllocError>
    ensures ok { WritesAtEnd result out.old out.new (dump_text chronicle.now) }
    ensures value { OnOk result (IsChronicleValue chronicle.now) }
{
    append_head(chronicle.members(), out)?;
    append_happenings(chronicle.submitted(), chronicle.answers(), out)?;
    append_order(chronicle.order(), out)?;
    append_end(out)
}

/// Writes the lines before what happened at the end. Where memory runs out, a part of them may stand there.
fn append_head(members: Members, out: &mut Vec<u8>) -> Result<(), AllocError>
    ensures ok { WritesAtEnd result out.old out.new (text_of_lines (head_lines members)) }
{
    let version = Version::of(members);
    append_version(version, out)?;
    append_members(members.count(), out)?;
    match version {
        Version::One => Ok(()),
        Version::Two => append_weights(members.weights(), out),
    }
}

/// Writes what happened at the end, a line each. Where memory runs out, a part of it may stand there.
fn append_happenings(
    submitted: &[Submission<Op>],
    answers: &[Answer<Reply>],
    out: &mut Vec<u8>,
) -> Result<(), AllocError>
    requires { IsTimeline (record { submitted = submitted.now; answers = answers.now }) }
    ensures ok { WritesAtEnd result out.old out.new
        (flat_map happening_line (happenings submitted.now answers.now)) }
    ensures submitted { OnOk result
        (AllByRecursion (λ (s : Submission Op). IsCommandValue s.command) submitted.now) }
    ensures answered { OnOk result (AllByRecursion IsAnswerValue answers.now) }
{
    let mut given = 0;
    for submission in submitted {
        append_answers(&answers[given..submission.after], out)?;
        append_submission(&submission.command, out)?;
        given = submission.after;
    }
    append_answers(&answers[given..], out)
}

/// Writes answers at the end, a line each. Where memory runs out, a part of them may stand there.
fn append_answers(answers: &[Answer<Reply>], out: &mut Vec<u8>) -> Result<(), AllocError>
    ensures ok { WritesAtEnd result out.old out.new (flat_map answer_line answers.now) }
    ensures value { OnOk result (AllByRecursion IsAnswerValue answers.now) }
{
    for answer in answers {
        append_answer(answer, out)?;
    }
    Ok(())
}

/// Writes the commands that counted at the end, a line each. Where memory runs out, a part of them may stand there.
fn append_order(order: &[Key], out: &mut Vec<u8>) -> Result<(), AllocError>
    ensures ok { WritesAtEnd result out.old out.new (flat_map order_line order.now) }
    ensures value { OnOk result (AllByRecursion IsKeyValue order.now) }
{
    for key in order {
        append_place(*key, out)?;
    }
    Ok(())
}
