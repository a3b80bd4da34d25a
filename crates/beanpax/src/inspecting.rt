ghost use Rattle.std.specs.Prelude.{◌≡◌, true, Err, IfOk, IfErr};
ghost use Rattle.std.specs.Io.KnownBytes.{Appends};
ghost use Rattle.beanpax.specs.declared.faults.ProgramFault.TheVariants.{WriteFailed};
ghost use Rattle.beanpax.specs.Faults.{IsOfOutput};
ghost use Rattle.beanpax.specs.Program.{BeginsVerdict, HasInspected, IsInspectionFault, TellsCauseIn};
ghost use Rattle.inspection.specs.Verdicts.{IsVerdict, verdict_line};

use crate::faults::ProgramFault;
use crate::host::Host;
use crate::telling::tell_file_fault;
use inspection::{Verdict, inspect_text};
use session::{ByteOut, write_all};
use std::alloc::Global;
use std::fs;

/// Tells on the output what is found of the file's text; or on the errors, why the file can't be read.
pub(crate) fn inspect_file<R: Host, W: ByteOut, E: ByteOut>(
    rt: &R,
    file: &str,
    output: &mut W,
    errors: &mut E,
) -> Result<Verdict, ProgramFault>
    ensures ok { IfOk result (HasInspected (W.contents output.old) (W.contents output.new)) }
    ensures err { IfErr result (IsInspectionFault (W.has_failed output.new)) }
    ensures begins { BeginsVerdict (W.contents output.old) (W.contents output.new) }
    ensures cause { TellsCauseIn E.ByteOut result errors.old errors.new }
{
    let text = match fs::read(rt, file) {
        Ok(text) => text,
        Err(e) => return Err(tell_file_fault(rt.alloc(), file, &e, errors)),
    };
    tell_verdict(rt.alloc(), text.as_slice(), output)
}

// Tells what is found of this text, of all of it.
fn tell_verdict<W: ByteOut>(
    alloc: Global,
    text: &[u8],
    output: &mut W,
) -> Result<Verdict, ProgramFault>
    ensures verdict { IfOk result (IsVerdict text.now) }
    ensures told { IfOk result (λ verdict.
        Appends (W.contents output.old) (W.contents output.new) (verdict_line verdict)) }
    ensures fault { IfErr result IsOfOutput }
    ensures write_failed { result ≡ Err WriteFailed → W.has_failed output.new ≡ true }
    ensures begins { BeginsVerdict (W.contents output.old) (W.contents output.new) }
{
    let verdict = inspect_text(alloc, text)?;
    let line = verdict.line(alloc)?;
    write_all(output, line.as_bytes()).map_err(|_| ProgramFault::WriteFailed)?;
    Ok(verdict)
}
