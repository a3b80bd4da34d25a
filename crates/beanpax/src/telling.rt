ghost use Rattle.std.specs.Prelude.{◌++◌, codes, decimal};
ghost use Rattle.std_io.specs.IoError.{error_kind};
ghost use Rattle.session.specs.StreamStates.{WritesAll};
ghost use Rattle.beanpax.specs.Faults.{IsOfFile, cause_line, fault_line_text};
ghost use Rattle.beanpax.specs.Program.{TellsCause, TellsCauseOf, WritesText};

use crate::faults::{ProgramFault, file_fault};
use itoa::Buffer;
use session::{ByteOut, Failed, write_all};
use std::alloc::Global;
use std::fmt::Display;
use std::io;

/// Tells a fault on the errors by its line, or by a beginning of it where they fail. It takes no memory.
pub fn tell_fault<E: ByteOut>(fault: ProgramFault, errors: &mut E)
    ensures { WritesText (E.contents errors.old) (E.contents errors.new) (E.has_failed errors.new)
        (fault_line_text fault) }
{
    match fault {
        ProgramFault::OutOfMemory => tell_error("beanpax: 1 out of memory\n", errors),
        ProgramFault::BadNumber => tell_error("beanpax: 6 bad number\n", errors),
        ProgramFault::ReadFailed => tell_error("beanpax: 7 read failed\n", errors),
        ProgramFault::WriteFailed => tell_error("beanpax: 8 write failed\n", errors),
        ProgramFault::ServiceStopped => tell_error("beanpax: 9 service stopped\n", errors),
        ProgramFault::ListenFailed => tell_error("beanpax: 12 cannot listen\n", errors),
        ProgramFault::FileFailed => tell_error("beanpax: 13 file failed\n", errors),
        ProgramFault::ThreadFailed => tell_error("beanpax: 14 cannot start a thread\n", errors),
        ProgramFault::LogDamaged(line) => {
            tell_number("beanpax: 15 log damaged: line ", line, "\n", errors)
        }
    }
}

/// Writes the text to the errors, or a beginning of it where they fail.
pub(crate) fn tell_error<E: ByteOut>(text: &str, errors: &mut E)
    ensures { WritesText (E.contents errors.old) (E.contents errors.new) (E.has_failed errors.new)
        text.now }
{
    let _ = write_all(errors, text.as_bytes());
}

/// The same of a text that has a number in it.
pub(crate) fn tell_number<E: ByteOut>(front: &str, number: u64, rest: &str, errors: &mut E)
    ensures { WritesText (E.contents errors.old) (E.contents errors.new) (E.has_failed errors.new)
        (front.now ++ (decimal number ++ rest.now)) }
{
    let _ = write_number(front, number, rest, errors);
}

/// Tells in a line of its own what failed, by its name, and why.
pub(crate) fn tell_cause<D: Display, E: ByteOut>(
    alloc: Global,
    name: &str,
    cause: &D,
    errors: &mut E,
)
    ensures { TellsCause E.ByteOut errors.old errors.new name.now }
{
    match format!(in alloc; "{cause}") {
        Ok(reason) => tell_reason(name, reason.as_str(), errors),
        Err(_) => tell_reason(name, "failed, and there is no memory to say why", errors),
    }
}

/// Tells why this file could not be read or written, unless it was for want of memory.
pub(crate) fn tell_file_fault<E: ByteOut>(
    alloc: Global,
    file: &str,
    error: &io::Error,
    errors: &mut E,
) -> ProgramFault
    ensures fault { IsOfFile (error_kind error.now) result }
    ensures cause { TellsCauseOf E.ByteOut result errors.old errors.new }
{
    let fault = file_fault(error);
    if !matches!(fault, ProgramFault::OutOfMemory) {
        tell_cause(alloc, file, error, errors);
    }
    fault
}

// Tells what failed, and this reason.
fn tell_reason<E: ByteOut>(name: &str, reason: &str, errors: &mut E)
    ensures { WritesText (E.contents errors.old) (E.contents errors.new) (E.has_failed errors.new)
        (cause_line name.now reason.now) }
{
    let _ = write_reason(name, reason, errors);
}

// Writes the line of it.
#[tactic(auto, unfolding(crate::specs::Faults::cause_line))]
fn write_reason<E: ByteOut>(name: &str, reason: &str, errors: &mut E) -> Result<(), Failed>
    ensures { WritesAll E.ByteOut errors.old errors.new (cause_line name.now reason.now) result }
{
    write_all(errors, "beanpax: ".as_bytes())?;
    write_behind(name, ": ", reason, errors)
}

// Writes three texts and a line feed.
fn write_behind<E: ByteOut>(
    first: &str,
    between: &str,
    last: &str,
    errors: &mut E,
) -> Result<(), Failed>
    ensures { WritesAll E.ByteOut errors.old errors.new
        (first.now ++ (between.now ++ (last.now ++ codes "\n"))) result }
{
    write_all(errors, first.as_bytes())?;
    write_all(errors, between.as_bytes())?;
    write_all(errors, last.as_bytes())?;
    write_all(errors, "\n".as_bytes())
}

// Writes the number between the texts, and takes no memory for it.
fn write_number<E: ByteOut>(
    front: &str,
    number: u64,
    rest: &str,
    errors: &mut E,
) -> Result<(), Failed>
    ensures { WritesAll E.ByteOut errors.old errors.new (front.now ++ (decimal number ++ rest.now))
        result }
{
    let mut digits = Buffer::new();
    write_all(errors, front.as_bytes())?;
    write_all(errors, digits.format(number).as_bytes())?;
    write_all(errors, rest.as_bytes())
}
