ghost use Rattle.std.specs.Prelude.{IfOk};
ghost use Rattle.inspection.specs.Verdicts.{IsDumpVerdict, IsVerdict, IsVerdictOn};

use crate::inspecting_log::inspect_log;
use crate::verdict::Verdict;
use bean_words::{Op, Reply};
use chronicle::{CheckFault, check};
use chronicle_text::{Chronicle, ReadFault, read_text};
use std::alloc::{AllocError, Global};

/// What is found of the text: it is read as a dump, and checked, or as a log, where it begins as one. It fails for want of
/// memory alone.
pub fn inspect_text(alloc: Global, text: &[u8]) -> Result<Verdict, AllocError>
    ensures { IfOk result (IsVerdict text.now) }
{
    if text.starts_with(b"beanpax-log ".as_slice()) {
        inspect_log(alloc, text)
    } else {
        inspect_dump(alloc, text)
    }
}

// What is found of it as a dump.
fn inspect_dump(alloc: Global, text: &[u8]) -> Result<Verdict, AllocError>
    ensures { IfOk result (IsDumpVerdict text.now) }
{
    match read_text(alloc, text) {
        Ok(chronicle) => verdict_on(alloc, &chronicle),
        Err(ReadFault::BadLine(line)) => Ok(Verdict::BadLine(line)),
        Err(ReadFault::OutOfMemory) => Err(AllocError),
    }
}

// What is found of the chronicle.
fn verdict_on(alloc: Global, chronicle: &Chronicle<Op, Reply>) -> Result<Verdict, AllocError>
    ensures { IfOk result (IsVerdictOn chronicle.now) }
{
    match check(alloc, chronicle) {
        Ok(()) => Ok(Verdict::Legal {
            submitted: chronicle.submitted().len(),
            answered: chronicle.answers().len(),
            ordered: chronicle.order().len(),
        }),
        Err(CheckFault::At(line, what)) => Ok(Verdict::At(line, what)),
        Err(CheckFault::OutOfMemory) => Err(AllocError),
    }
}
