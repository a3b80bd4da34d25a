ghost use Rattle.std.specs.Prelude.{◌≡◌, ◌≤◌, ◌⊎◌, ℕ, List, true, false, codes, map, string_bytes, Ok, IfOk, IfErr, OnOk, OnErr};
ghost use Rattle.beanpax.specs.declared.faults.ProgramFault.{ProgramFault};
ghost use Rattle.beanpax.specs.declared.faults.ProgramFault.TheVariants.{WriteFailed};
ghost use Rattle.std.specs.Io.KnownBytes.{Appends};
ghost use Rattle.session.specs.Streams.{AppendsBeginning};
ghost use Rattle.options.specs.declared.words.ServerOptions.{ServerOptions};
ghost use Rattle.beanpax.specs.Faults.{fault_line_text};
ghost use Rattle.beanpax.specs.Program.{EndsWith, HasListened, IsCaused, AnswersToSomeEnd, IsRunFault, TellsSome, WritesSome, WritesText};
ghost use Rattle.beanpax.specs.Program.{BeginsToTell, IsWholeRun, TellsCauseOf, TellsOfLog, WritesMore};
ghost use Rattle.beanpax.specs.Runs.{TellsBeginning};
ghost use Rattle.inspection.specs.declared.verdict.Verdict.{Verdict};
ghost use Rattle.inspection.specs.Verdicts.{is_legal};
ghost use Rattle.options.specs.Words.{AreWrong, HaveBadHost, HaveBadWeights};
ghost use Rattle.options.specs.Words.{AskForHelp, AskForInspection, AskForLog, AskForRun, AskForServer, AskForVersion, profile_asked};

use crate::faults::ProgramFault;
use crate::host::Host;
use crate::inspecting::inspect_file;
use crate::run::run_bytes_in;
use crate::server::serve_tcp;
use crate::telling::{tell_error, tell_fault};
use bean_codec::front_item;
use inspection::Verdict;
use options::{Action, RunOptions, VERSION, parse_words};
use session::{ByteIn, ByteOut, write_all};
use std::alloc::{AllocError, Global};

/// The status of a program that did what was asked.
pub const DONE: u8 = 0;

/// The status after a fault.
pub const FAULT: u8 = 1;

/// The status at wrong words.
pub const WRONG_WORDS: u8 = 2;

/// What is told where the weights are outside their rule, or stand beside a number of nodes.
const BAD_WEIGHTS: &str = "beanpax: bad weights\n";

/// What is told where what stands for an address is none.
const BAD_HOST: &str = "beanpax: bad host\n";

/// The status where something is wrong with a dump or a log.
pub const DUMP_REFUSED: u8 = 3;

/// Does what the program does with these words, of which the first is its name. Answers the status.
///
/// The help and the version go to the output, and what is wrong with the words to the errors. A server returns
/// when it has served as many connections as were asked for; what it does for them is in the
/// contract of `serve_clients`. What is cut off behind a log is told on the errors, and how far a start from it is; and
/// before a fault, which address or file failed, and why.
pub fn program<H: Host, R: ByteIn, W: ByteOut, E: ByteOut>(
    rt: &H,
    words: &[String],
    input: &mut R,
    output: &mut W,
    errors: &mut E,
) -> u8
    ensures known { result ≤ DUMP_REFUSED }
    ensures right { result ≡ DONE
        → (AskForRun (map string_bytes words.now)
        × AnswersToSomeEnd (profile_asked (map string_bytes words.now)) (R.remaining input.old) (R.remaining input.new)
        (W.contents output.old) (W.contents output.new))
        ⊎ ((AskForHelp (map string_bytes words.now)
        × TellsSome (W.contents output.old) (W.contents output.new) × (input.new ≡ input.old))
        ⊎ ((AskForVersion (map string_bytes words.now)
        × Appends (W.contents output.old) (W.contents output.new) VERSION.now × (input.new ≡ input.old))
        ⊎ (((options : ServerOptions) × AskForServer (map string_bytes words.now) options
        × HasListened options (W.contents output.old) (W.contents output.new)
        × (input.new ≡ input.old))
        ⊎ ((file : List ℕ) × AskForInspection (map string_bytes words.now) file
        × EndsWith true (W.contents output.old) (W.contents output.new)
        × (input.new ≡ input.old))))) }
    ensures refused { result ≡ DUMP_REFUSED
        → (file : List ℕ) × AskForInspection (map string_bytes words.now) file
        × EndsWith false (W.contents output.old) (W.contents output.new)
        × (input.new ≡ input.old) × (errors.new ≡ errors.old) }
    ensures silent { result ≡ DONE → (AskForLog (map string_bytes words.now) → ⊥)
        → errors.new ≡ errors.old }
    ensures more { result ≡ DONE → WritesMore E.ByteOut errors.old errors.new }
    ensures fault { result ≡ FAULT → (fault : ProgramFault) × (after_log before : E)
        × IsCaused (map string_bytes words.now) fault
        (R.has_failed input.new) (W.has_failed output.new)
        × TellsOfLog (AskForLog (map string_bytes words.now)) E.ByteOut errors.old after_log
        × TellsCauseOf E.ByteOut fault after_log before
        × WritesText (E.contents before) (E.contents errors.new) (E.has_failed errors.new)
        (fault_line_text fault) }
    ensures wrong { result ≡ WRONG_WORDS
        → (AreWrong (map string_bytes words.now)
        × WritesSome (E.contents errors.old) (E.contents errors.new) (E.has_failed errors.new))
        ⊎ ((HaveBadWeights (map string_bytes words.now)
        × WritesText (E.contents errors.old) (E.contents errors.new) (E.has_failed errors.new)
        (codes "beanpax: bad weights\n"))
        ⊎ (HaveBadHost (map string_bytes words.now)
        × WritesText (E.contents errors.old) (E.contents errors.new) (E.has_failed errors.new)
        (codes "beanpax: bad host\n"))) }
    ensures untouched { result ≡ WRONG_WORDS → (input.new ≡ input.old) × (output.new ≡ output.old) }

    ensures whole { result ≡ DONE → AskForRun (map string_bytes words.now)
        → IsWholeRun (profile_asked (map string_bytes words.now)) (R.remaining input.old) (R.remaining input.new) (R.has_ended input.new)
        (W.contents output.old) (W.contents output.new) }
    ensures breaks_off { result ≡ FAULT → AskForRun (map string_bytes words.now)
        → TellsBeginning (profile_asked (map string_bytes words.now)) (R.remaining input.old) (R.remaining input.new)
        (W.contents output.old) (W.contents output.new) }
    ensures unread { (AskForRun (map string_bytes words.now) → ⊥) → input.new ≡ input.old }
    ensures begins { (AskForRun (map string_bytes words.now) → ⊥)
        → BeginsToTell (map string_bytes words.now) (W.contents output.old) (W.contents output.new) }
{
    match parse_words(rt.alloc(), words) {
        Ok(Action::Run(options)) => {
            let ended = run(rt.alloc(), &options, input, output);
            status_after(ended, errors)
        }
        Ok(Action::Serve(options)) => {
            let ended = serve_tcp(rt, &options, output, errors);
            status_after(ended, errors)
        }
        Ok(Action::Inspect { file }) => {
            let found = inspect_file(rt, file, output, errors);
            status_of(found, errors)
        }
        Ok(Action::BadWeights) => {
            tell_error(BAD_WEIGHTS, errors);
            WRONG_WORDS
        }
        Ok(Action::BadHost) => {
            tell_error(BAD_HOST, errors);
            WRONG_WORDS
        }
        Ok(Action::Help(text)) => {
            let shown = show_text(text.as_str(), output);
            status_after(shown, errors)
        }
        Ok(Action::Version) => {
            let shown = show_text(VERSION, output);
            status_after(shown, errors)
        }
        Ok(Action::Wrong(text)) => {
            tell_error(text.as_str(), errors);
            WRONG_WORDS
        }
        Err(AllocError) => {
            front_item();
            status_after(Err(ProgramFault::OutOfMemory), errors)
        }
    }
}

// Answers a client of these nodes, in the profile that is asked for, and leaves out how its session ended.
fn run<R: ByteIn, W: ByteOut>(
    alloc: Global,
    options: &RunOptions,
    input: &mut R,
    output: &mut W,
) -> Result<(), ProgramFault>
    ensures ok { OnOk result (AnswersToSomeEnd options.now.profile (R.remaining input.old) (R.remaining input.new)
        (W.contents output.old) (W.contents output.new)) }
    ensures whole { OnOk result (IsWholeRun options.now.profile (R.remaining input.old) (R.remaining input.new)
        (R.has_ended input.new) (W.contents output.old) (W.contents output.new)) }
    ensures err { IfErr result (IsRunFault (R.has_failed input.new) (W.has_failed output.new)) }
    ensures breaks_off { OnErr result (TellsBeginning options.now.profile (R.remaining input.old) (R.remaining input.new)
        (W.contents output.old) (W.contents output.new)) }
{
    let weights = options.members.weights();
    run_bytes_in(options.profile, alloc, weights, options.seed, input, output)?;
    Ok(())
}

// Writes the help, or the version.
fn show_text<W: ByteOut>(text: &str, output: &mut W) -> Result<(), ProgramFault>
    ensures ok { OnOk result (Appends (W.contents output.old) (W.contents output.new) text.now) }
    ensures begins { AppendsBeginning (W.contents output.old) (W.contents output.new) text.now }
    ensures fault { IfErr result (λ fault. fault ≡ WriteFailed) }
    ensures write_failed { OnErr result (W.has_failed output.new ≡ true) }
{
    write_all(output, text.as_bytes()).map_err(|_| ProgramFault::WriteFailed)
}

// Tells the fault, where there is one.
fn status_after<E: ByteOut>(ended: Result<(), ProgramFault>, errors: &mut E) -> u8
    ensures done { OnOk ended ((result ≡ DONE) × (errors.new ≡ errors.old)) }
    ensures fault { IfErr ended (λ fault. (result ≡ FAULT)
        × WritesText (E.contents errors.old) (E.contents errors.new) (E.has_failed errors.new)
        (fault_line_text fault)) }
{
    match ended {
        Ok(()) => DONE,
        Err(fault) => {
            tell_fault(fault, errors);
            FAULT
        }
    }
}

// Tells why nothing was found, where that is so.
fn status_of<E: ByteOut>(found: Result<Verdict, ProgramFault>, errors: &mut E) -> u8
    ensures known { result ≤ DUMP_REFUSED }
    ensures done { result ≡ DONE → (verdict : Verdict) × (found ≡ Ok verdict)
        × (is_legal verdict ≡ true) × (errors.new ≡ errors.old) }
    ensures refused { result ≡ DUMP_REFUSED → (verdict : Verdict) × (found ≡ Ok verdict)
        × (is_legal verdict ≡ false) × (errors.new ≡ errors.old) }
    ensures right { IfOk found (λ verdict. (result ≡ DONE) ⊎ (result ≡ DUMP_REFUSED)) }
    ensures fault { IfErr found (λ fault. (result ≡ FAULT)
        × WritesText (E.contents errors.old) (E.contents errors.new) (E.has_failed errors.new)
        (fault_line_text fault)) }
{
    match found {
        Ok(verdict) if verdict.is_legal() => DONE,
        Ok(_) => DUMP_REFUSED,
        Err(fault) => status_after(Err(fault), errors),
    }
}
