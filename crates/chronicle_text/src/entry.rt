ghost use Rattle.std.specs.Prelude.{IfOk};
ghost use Rattle.object.specs.Results.{WritesAtEnd};
ghost use Rattle.chronicle_text.specs.Entries.{entry_line, Says};

use crate::lines::{
    append_answer, append_end, append_members, append_place, append_submission, append_version,
    append_weights,
};
use crate::tell::entry_of_words;
use crate::version::Version;
use ballot::Members;
use bean_codec::Words;
use bean_words::{Op, Reply};
use object::{Answer, Command, Key};
use std::alloc::{AllocError, Global};

/// What a line of a dump says.
#[derive(Drop)]
pub enum Entry {
    /// The first line, with the version.
    Version(Version),
    /// How many members there are.
    Members(u8),
    /// What each of them weighs.
    Weights(Members),
    /// A command was submitted.
    Submitted(Command<Op>),
    /// An answer was given.
    Answered(Answer<Reply>),
    /// The command of this key counted.
    Placed(Key),
    /// The last line.
    End,
}

// Writes the line that says this at the end. Where memory runs out, a part of it may stand there.
fn append_entry(entry: &Entry, out: &mut Vec<u8>) -> Result<(), AllocError>
    ensures ok { WritesAtEnd result out.old out.new (entry_line entry.now) }
{
    match entry {
        Entry::Version(version) => append_version(*version, out),
        Entry::Members(count) => append_members(*count, out),
        Entry::Weights(members) => append_weights(members.weights(), out),
        Entry::Submitted(command) => append_submission(command, out),
        Entry::Answered(answer) => append_answer(answer, out),
        Entry::Placed(key) => append_place(*key, out),
        Entry::End => append_end(out),
    }
}

/// What the line with its line feed says. It is taken only where it is what would be written, byte
/// by byte.
pub fn read_entry(alloc: Global, line: &[u8]) -> Result<Option<Entry>, AllocError>
    ensures { IfOk result (λ read. Says line.now read) }
{
    let Some(words) = line.strip_suffix(b"\n".as_slice()) else {
        return Ok(None);
    };
    let Some(entry) = entry_of_words(alloc, Words::new(words))? else {
        return Ok(None);
    };
    let mut written = Vec::new(alloc);
    append_entry(&entry, &mut written)?;
    if written.as_slice() != line {
        return Ok(None);
    }
    Ok(Some(entry))
}
