ghost use Rattle.std.specs.Prelude.{◌∷◌, [], codes, OnOk};
ghost use Rattle.object.specs.Results.{WritesAtEnd};
ghost use Rattle.chronicle_text.specs.Lines.{spaced, body_word};
ghost use Rattle.chronicle_text.specs.Replies.{reply_words};
ghost use Rattle.chronicle_text.specs.Values.{IsReplyValue};
ghost use Rattle.std.specs.List.{AllByRecursion};
ghost use Rattle.hex.specs.Hex.{IsBytes};
ghost use Rattle.bean_words.specs.Names.{IsName};

use crate::append::{append_body, append_count, append_job, append_names, append_two, append_word};
use bean_words::{Body, Name, Reply};
use std::alloc::AllocError;

/// Writes the words for a reply at the end, each after a space. Where memory runs out, a part of them may stand there.
#[tactic(auto, unfolding(crate::specs::Replies::reply_words))]
pub fn append_reply(reply: &Reply, out: &mut Vec<u8>) -> Result<(), AllocError>
    ensures ok { WritesAtEnd result out.old out.new (spaced (reply_words reply.now)) }
    ensures value { OnOk result (IsReplyValue reply.now) }
{
    match reply {
        Reply::Inserted(id) => append_count(b"INSERTED", *id, out),
        Reply::Using(tube) => append_two(b"USING", tube.as_slice(), out),
        Reply::Watching(count) => append_count(b"WATCHING", *count, out),
        Reply::NotIgnored => append_word(b"NOT_IGNORED", out),
        Reply::Reserved { id, body } => append_job(b"RESERVED", *id, body.as_slice(), out),
        Reply::DeadlineSoon => append_word(b"DEADLINE_SOON", out),
        Reply::TimedOut => append_word(b"TIMED_OUT", out),
        Reply::Deleted => append_word(b"DELETED", out),
        Reply::NotFound => append_word(b"NOT_FOUND", out),
        Reply::Released => append_word(b"RELEASED", out),
        Reply::Buried => append_word(b"BURIED", out),
        Reply::Touched => append_word(b"TOUCHED", out),
        Reply::KickedCount(count) => append_count(b"KICKED", *count, out),
        Reply::Kicked => append_word(b"KICKED", out),
        Reply::Found { id, body } => append_job(b"FOUND", *id, body.as_slice(), out),
        Reply::Tubes(names) => append_tubes(names.as_slice(), out),
        Reply::Data(text) => append_report(text, out),
        Reply::Paused => append_word(b"PAUSED", out),
        Reply::InternalError => append_word(b"INTERNAL_ERROR", out),
    }
}

/// A list of tubes.
fn append_tubes(names: &[Name], out: &mut Vec<u8>) -> Result<(), AllocError>
    ensures ok { WritesAtEnd result out.old out.new (spaced (codes "OK" ∷ names.now)) }
    ensures value { OnOk result (AllByRecursion IsName names.now) }
{
    append_word(b"OK", out)?;
    append_names(names, out)
}

/// A report.
fn append_report(text: &Body, out: &mut Vec<u8>) -> Result<(), AllocError>
    ensures ok { WritesAtEnd result out.old out.new
        (spaced (codes "DATA" ∷ body_word text.now ∷ [])) }
    ensures value { OnOk result (IsBytes text.now) }
{
    append_word(b"DATA", out)?;
    append_body(text.as_slice(), out)
}
