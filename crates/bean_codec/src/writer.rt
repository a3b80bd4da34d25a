ghost use Rattle.std.specs.Prelude.{◌<◌, ◌≤◌, ◌+◌, ◌++◌, length, vec_len, vec_capacity, codes, OnErr};
ghost use Rattle.object.specs.Results.{AddsAtEnd, WritesAtEnd};
ghost use Rattle.bean_codec.specs.Lines.{line_text};
ghost use Rattle.bean_codec.specs.Replies.{reply_text, fault_text, job_text, data_text};

use crate::append::{append_count, append_line, append_number};
use crate::request::Fault;
use crate::tube_list::append_tubes;
use bean_words::{Body, Name, Reply};
use std::alloc::AllocError;

/// Writes the text of a reply at the end. Where memory runs out, nothing is written.
pub fn write_reply(reply: &Reply, out: &mut Vec<u8>) -> Result<(), AllocError>
    ensures ok { AddsAtEnd result out.old out.new (reply_text reply.now) }
    ensures full { OnErr result
        (vec_capacity out.old < vec_len out.old + length (reply_text reply.now)) }
{
    let len = out.len();
    let written = append_reply(reply, out);
    if written.is_err() {
        out.truncate(len);
    }
    written
}

/// Writes the text of a reply at the end. Where memory runs out, a part of it may stand there.
#[tactic(auto, unfolding(crate::specs::Replies::reply_text))]
fn append_reply(reply: &Reply, out: &mut Vec<u8>) -> Result<(), AllocError>
    ensures ok { WritesAtEnd result out.old out.new (reply_text reply.now) }
    ensures full { OnErr result
        (vec_capacity out.old < vec_len out.old + length (reply_text reply.now)) }
{
    match reply {
        Reply::Inserted(id) => append_count(b"INSERTED", *id, out),
        Reply::Using(tube) => append_using(tube, out),
        Reply::Watching(count) => append_count(b"WATCHING", *count, out),
        Reply::NotIgnored => append_line(b"NOT_IGNORED", out),
        Reply::Reserved { id, body } => append_job(b"RESERVED", *id, body, out),
        Reply::DeadlineSoon => append_line(b"DEADLINE_SOON", out),
        Reply::TimedOut => append_line(b"TIMED_OUT", out),
        Reply::Deleted => append_line(b"DELETED", out),
        Reply::NotFound => append_line(b"NOT_FOUND", out),
        Reply::Released => append_line(b"RELEASED", out),
        Reply::Buried => append_line(b"BURIED", out),
        Reply::Touched => append_line(b"TOUCHED", out),
        Reply::KickedCount(count) => append_count(b"KICKED", *count, out),
        Reply::Kicked => append_line(b"KICKED", out),
        Reply::Found { id, body } => append_job(b"FOUND", *id, body, out),
        Reply::Tubes(names) => append_tubes(names.as_slice(), out),
        Reply::Data(text) => append_report(text, out),
        Reply::Paused => append_line(b"PAUSED", out),
        Reply::InternalError => append_line(b"INTERNAL_ERROR", out),
    }
}

/// The tube that is used.
fn append_using(tube: &Name, out: &mut Vec<u8>) -> Result<(), AllocError>
    ensures ok { WritesAtEnd result out.old out.new (line_text (codes "USING " ++ tube.now)) }
    ensures full { OnErr result
        (vec_capacity out.old < vec_len out.old + length (line_text (codes "USING " ++ tube.now))) }
{
    out.extend_from_slice(b"USING ")?;
    out.extend_from_slice(tube.as_slice())?;
    out.extend_from_slice(b"\r\n")
}

/// A job: a line with the word, its id and the size of its body, and the body.
#[tactic(auto, unfolding(crate::specs::Replies::job_text))]
fn append_job(word: &[u8], id: u64, body: &Body, out: &mut Vec<u8>) -> Result<(), AllocError>
    ensures ok { WritesAtEnd result out.old out.new (job_text word.now id body.now) }
    ensures full { OnErr result
        (vec_capacity out.old < vec_len out.old + length (job_text word.now id body.now)) }
{
    let body = body.as_slice();
    out.extend_from_slice(word)?;
    out.extend_from_slice(b" ")?;
    append_number(id, out)?;
    out.extend_from_slice(b" ")?;
    append_number(body.len() as u64, out)?;
    out.extend_from_slice(b"\r\n")?;
    out.extend_from_slice(body)?;
    out.extend_from_slice(b"\r\n")
}

/// A report: a line with the size of its text, and the text.
#[tactic(auto, unfolding(crate::specs::Replies::data_text))]
fn append_report(text: &Body, out: &mut Vec<u8>) -> Result<(), AllocError>
    ensures ok { WritesAtEnd result out.old out.new (data_text text.now) }
    ensures full { OnErr result
        (vec_capacity out.old < vec_len out.old + length (data_text text.now)) }
{
    let text = text.as_slice();
    append_count(b"OK", text.len() as u64, out)?;
    append_line(text, out)
}

/// Writes the text that answers a fault at the end. Where memory runs out, nothing is written.
#[tactic(auto, unfolding(crate::specs::Replies::fault_text))]
pub fn write_fault(fault: Fault, out: &mut Vec<u8>) -> Result<(), AllocError>
    ensures ok { AddsAtEnd result out.old out.new (fault_text fault) }
    ensures full { OnErr result
        (vec_capacity out.old < vec_len out.old + length (fault_text fault)) }
{
    out.extend_from_slice(match fault {
        Fault::BadFormat => b"BAD_FORMAT\r\n".as_slice(),
        Fault::UnknownCommand => b"UNKNOWN_COMMAND\r\n".as_slice(),
        Fault::ExpectedCrlf => b"EXPECTED_CRLF\r\n".as_slice(),
        Fault::JobTooBig => b"JOB_TOO_BIG\r\n".as_slice(),
    })
}
