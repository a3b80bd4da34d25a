ghost use Rattle.std.specs.Prelude.{◌≡◌, ◌≢◌, ◌⊎◌, ◌*◌, None, Ok, Err, IfOk, IfErr, IfSome, OnOk};
ghost use Rattle.std.specs.Duration.{as_nanos};
ghost use Rattle.std.specs.Io.KnownBytes.{Appends};
ghost use Rattle.beanpax.specs.declared.faults.ProgramFault.TheVariants.{ListenFailed};
ghost use Rattle.beanpax.specs.Faults.{IsOfDump, IsOfLog, IsOfServer, of_journal, of_logged, of_server};
ghost use Rattle.beanpax.specs.Openings.{HasLed, HasRestored, HasStarted};
ghost use Rattle.beanpax.specs.Program.{IsServingFault, TellsCause, TellsCauseIn, TellsCauseOf, TellsOfServing};
ghost use Rattle.chronicle.specs.Checking.{IsFaultless};
ghost use Rattle.chronicle_text.specs.Dump.{dump_text};
ghost use Rattle.forgetting_hall.specs.Halls.{new_forgetting};
ghost use Rattle.forgetting_hall.specs.Handing.{second_of};
ghost use Rattle.hall.specs.Halls.{chronicle_of, new_hall};
ghost use Rattle.event_loops.specs.LoopCounts.{IsLoopCount};
ghost use Rattle.loops.specs.Comparing.{AllCompared};
ghost use Rattle.beanpax.specs.Servers.{TellsPort, address_text, listening_line};

use crate::faults::ProgramFault;
use crate::host::Host;
use crate::opening::{FromLog, OpenPort, Opened, open_all};
use crate::restoring::Restored;
use crate::seconds::ClockSeconds;
use crate::starting::Started;
use crate::telling::{tell_cause, tell_file_fault};
use bean_queue::Queue;
use chronicle_text::WriteText;
use forgetting_hall::ForgettingHall;
use hall::Hall;
use inspection::no_fault_in_a_dump;
use journal::{Journal, JournalFault};
use log_file::Locked;
use loops::{
    Clients, Logging, ServeFault, Served, ServedForgetting, serve_again, serve_clients,
    serve_forgetting, serve_logged,
};
use mio::net::TcpListener;
use object::Object;
use options::ServerOptions;
use session::ByteOut;
use std::alloc::{AllocError, Global};
use std::fs::File;
use std::io;
use std::io::Write;
use std::time::Duration;

/// Serves clients over TCP, as the options say, and tells on the output where it listens before it
/// accepts the first. What was cut off behind its log is told on the errors before, and where
/// something fails, what and why.
///
/// It returns when as many connections as were asked for have ended, and has written the dump then,
/// where that was asked for. What goes wrong with one client ends that client's session alone.
///
/// While it serves it tells on the machine's standard error where no client can be let in. Of that
/// no clause speaks.
pub(crate) fn serve_tcp<R: Host, W: ByteOut, E: ByteOut>(
    rt: &R,
    options: &ServerOptions<'_>,
    output: &mut W,
    errors: &mut E,
) -> Result<(), ProgramFault>
    requires workers { IsLoopCount options.now.workers }
    ensures tells { TellsPort W.ByteOut output.old output.new options.now.host options.now.port result }
    ensures fault { IfErr result (IsServingFault options.now (W.has_failed output.new)) }
    ensures not_listening { result ≡ Err ListenFailed →
        ((W.contents output.new ≡ W.contents output.old)
        × TellsCause E.ByteOut errors.old errors.new (address_text options.now.host options.now.port))
        ⊎ Appends (W.contents output.old) (W.contents output.new)
        (listening_line options.now.host options.now.port) }
    ensures told { TellsOfServing (options.now.log ≢ None) E.ByteOut result errors.old errors.new }
{
    let Opened { port, log } = open_all(rt, options, output, errors)?;
    match (log, options.dump) {
        (Some(from), _) => serve_from_log(rt, port, options, from, errors),
        (None, Some(file)) => serve_and_dump(rt, port, options, file, errors),
        (None, None) => serve_on(rt, port, options, errors),
    }
}

// Serves them from where a log has led.
fn serve_from_log<R: Host, E: ByteOut>(
    rt: &R,
    port: OpenPort,
    options: &ServerOptions<'_>,
    from: FromLog<'_>,
    errors: &mut E,
) -> Result<(), ProgramFault>
    requires workers { IsLoopCount options.now.workers }
    requires led { HasLed ⟦<Queue as Object>⟧.rules ⟦<Locked<File> as Write>⟧.contents options.now.members from }
    ensures fault { IfErr result (λ fault. IsOfServer fault ⊎ IsOfLog fault ⊎ IsOfDump fault) }
    ensures cause { TellsCauseIn E.ByteOut result errors.old errors.new }
{
    match from {
        FromLog::Forgetting { file, started } => {
            serve_started(rt, port, options, file, started, errors)
        }
        FromLog::Keeping {
            file,
            restored,
            dump,
        } => serve_restored(rt, port, options, file, restored, dump, errors),
    }
}

// Serves them over a hall that forgets and has started from the log in this file.
fn serve_started<R: Host, E: ByteOut>(
    rt: &R,
    port: OpenPort,
    options: &ServerOptions<'_>,
    file: &str,
    started: Started<Locked<File>>,
    errors: &mut E,
) -> Result<(), ProgramFault>
    requires workers { IsLoopCount options.now.workers }
    requires started { HasStarted ⟦<Queue as Object>⟧.rules ⟦<Locked<File> as Write>⟧.contents options.now.members
        started }
    ensures fault { IfErr result (λ fault. IsOfServer fault ⊎ IsOfLog fault) }
    ensures cause { TellsCauseIn E.ByteOut result errors.old errors.new }
{
    let OpenPort { listener, address } = port;
    let seconds = ClockSeconds::after(rt, started.hall.last_second());
    let clients = clients_of(listener, options);
    let fault = match serve_behind(rt, started, clients, seconds, options) {
        Ok(served) => served.fault,
        Err(fault) => Some(fault),
    };
    end_of_logged(rt.alloc(), &address, file, fault, errors)
}

// Serves on behind a log: the hall, what the log counts and the clock go on from where it has led.
fn serve_behind<R: Host>(
    rt: &R,
    started: Started<Locked<File>>,
    clients: Clients,
    seconds: ClockSeconds<'_, R>,
    options: &ServerOptions<'_>,
) -> Result<ServedForgetting<Queue>, ServeFault>
    requires workers { IsLoopCount options.now.workers }
    requires started { HasStarted ⟦<Queue as Object>⟧.rules ⟦<Locked<File> as Write>⟧.contents options.now.members
        started }
    requires second { seconds.second ≡ second_of started.hall }
    requires profile { clients.profile ≡ options.now.profile }
{
    let Started { hall, journal } = started;
    let logging = logging_of(journal, options);
    serve_logged(rt, hall, logging, clients, seconds, options.workers)
}

// Serves them over a hall that keeps all and was restored from the log in this file, and writes its dump at the end.
fn serve_restored<R: Host, E: ByteOut>(
    rt: &R,
    port: OpenPort,
    options: &ServerOptions<'_>,
    file: &str,
    restored: Restored<Locked<File>>,
    dump: &str,
    errors: &mut E,
) -> Result<(), ProgramFault>
    requires workers { IsLoopCount options.now.workers }
    requires restored { HasRestored ⟦<Locked<File> as Write>⟧.contents options.now.members restored }
    ensures fault { IfErr result (λ fault. IsOfServer fault ⊎ IsOfLog fault ⊎ IsOfDump fault) }
    ensures cause { TellsCauseIn E.ByteOut result errors.old errors.new }
{
    let alloc = rt.alloc();
    let OpenPort { listener, address } = port;
    let seconds = ClockSeconds::after(rt, restored.kept.hall.last_second());
    let clients = clients_of(listener, options);
    match serve_again_behind(rt, restored, clients, seconds, options) {
        Ok(served) => {
            end_of_logged(alloc, &address, file, served.fault, errors)?;
            write_dump(rt, &served.hall, dump, errors)
        }
        Err(fault) => end_of_logged(alloc, &address, file, Some(fault), errors),
    }
}

// Serves on behind a log, as `serve_behind`, over a hall that keeps all.
fn serve_again_behind<R: Host>(
    rt: &R,
    restored: Restored<Locked<File>>,
    clients: Clients,
    seconds: ClockSeconds<'_, R>,
    options: &ServerOptions<'_>,
) -> Result<Served<Queue>, ServeFault>
    requires workers { IsLoopCount options.now.workers }
    requires restored { HasRestored ⟦<Locked<File> as Write>⟧.contents options.now.members restored }
    requires second { seconds.second ≡ restored.kept.hall.second }
    requires profile { clients.profile ≡ options.now.profile }
    ensures served { IfOk result (λ s.
        AllCompared s.hall.book s.compared.items s.acts s.fault) }
{
    let Restored { kept, journal } = restored;
    let logging = logging_of(journal, options);
    serve_again(rt, kept, logging, clients, seconds, options.workers)
}

// Whom it serves, and in which profile.
fn clients_of(listener: TcpListener, options: &ServerOptions<'_>) -> Clients
    ensures sessions { result.sessions ≡ options.now.sessions }
    ensures profile { result.profile ≡ options.now.profile }
{
    Clients {
        listener,
        sessions: options.sessions,
        profile: options.profile,
    }
}

// How the log is kept.
fn logging_of(journal: Journal<Locked<File>>, options: &ServerOptions<'_>) -> Logging
    ensures journal { result.journal ≡ journal }
    ensures pause { as_nanos result.pause ≡ options.now.sync * 1000000 }
{
    Logging {
        journal,
        pause: Duration::from_millis(u64::from(options.sync)),
    }
}

// Serves those who connect here over a hall that keeps all, and writes its dump to this file at the end.
fn serve_and_dump<R: Host, E: ByteOut>(
    rt: &R,
    port: OpenPort,
    options: &ServerOptions<'_>,
    file: &str,
    errors: &mut E,
) -> Result<(), ProgramFault>
    requires workers { IsLoopCount options.now.workers }
    ensures fault { IfErr result (λ fault. IsOfServer fault ⊎ IsOfDump fault) }
    ensures cause { TellsCauseIn E.ByteOut result errors.old errors.new }
{
    let OpenPort { listener, address } = port;
    let hall = Hall::new(rt.alloc(), options.members)?;
    match serve_keeping(rt, hall, listener, options) {
        Ok(served) => conclude(rt, &address, &served, file, errors),
        Err(fault) => end_of(rt.alloc(), &address, Some(fault), errors),
    }
}

// Serves them over a hall that forgets.
fn serve_on<R: Host, E: ByteOut>(
    rt: &R,
    port: OpenPort,
    options: &ServerOptions<'_>,
    errors: &mut E,
) -> Result<(), ProgramFault>
    requires workers { IsLoopCount options.now.workers }
    ensures fault { IfErr result IsOfServer }
    ensures cause { TellsCauseIn E.ByteOut result errors.old errors.new }
{
    let OpenPort { listener, address } = port;
    let hall = ForgettingHall::new(rt.alloc(), options.members)?;
    let fault = match serve_forgetful(rt, hall, listener, options) {
        Ok(served) => served.fault,
        Err(fault) => Some(fault),
    };
    end_of(rt.alloc(), &address, fault, errors)
}

// Serves on this hall, by as many loops and as many clients as the options ask.
fn serve_keeping<R: Host>(
    rt: &R,
    hall: Hall<Queue>,
    listener: TcpListener,
    options: &ServerOptions<'_>,
) -> Result<Served<Queue>, ServeFault>
    requires hall { hall ≡ new_hall options.now.members }
    requires workers { IsLoopCount options.now.workers }
    ensures served { IfOk result (λ s.
        AllCompared s.hall.book s.compared.items s.acts s.fault) }
{
    serve_clients(
        rt,
        hall,
        clients_of(listener, options),
        ClockSeconds::new(rt),
        options.workers,
    )
}

// The same on a hall that forgets.
fn serve_forgetful<R: Host>(
    rt: &R,
    hall: ForgettingHall<Queue>,
    listener: TcpListener,
    options: &ServerOptions<'_>,
) -> Result<ServedForgetting<Queue>, ServeFault>
    requires hall { hall ≡ new_forgetting ⟦<Queue as Object>⟧.rules options.now.members }
    requires workers { IsLoopCount options.now.workers }
{
    serve_forgetting(
        rt,
        hall,
        clients_of(listener, options),
        ClockSeconds::new(rt),
        options.workers,
    )
}

// Tells why the server at this address ended, where something went wrong.
fn end_of<E: ByteOut>(
    alloc: Global,
    address: &str,
    fault: Option<ServeFault>,
    errors: &mut E,
) -> Result<(), ProgramFault>
    ensures fault { IfSome fault (λ fault. result ≡ Err (of_server fault)) }
    ensures no_fault { fault ≡ None → result ≡ Ok tt }
    ensures only { IfErr result IsOfServer }
    ensures cause { TellsCauseIn E.ByteOut result errors.old errors.new }
{
    let Some(fault) = fault else {
        return Ok(());
    };
    match fault {
        ServeFault::ListenFailed(e) => tell_cause(alloc, address, &e, errors),
        // none of a server without a log
        ServeFault::LogFailed(why) => tell_cause(alloc, address, &why, errors),
        ServeFault::OutOfMemory | ServeFault::ThreadFailed | ServeFault::BadNumber => {}
    }
    Err(ProgramFault::from(fault))
}

// The same of a server with the log in this file.
fn end_of_logged<E: ByteOut>(
    alloc: Global,
    address: &str,
    file: &str,
    fault: Option<ServeFault>,
    errors: &mut E,
) -> Result<(), ProgramFault>
    ensures fault { IfSome fault (λ fault. result ≡ Err (of_logged fault)) }
    ensures no_fault { fault ≡ None → result ≡ Ok tt }
    ensures only { IfErr result (λ fault. IsOfServer fault ⊎ IsOfLog fault) }
    ensures cause { TellsCauseIn E.ByteOut result errors.old errors.new }
{
    match fault {
        Some(ServeFault::LogFailed(why)) => Err(tell_log_fault(alloc, file, why, errors)),
        fault => end_of(alloc, address, fault, errors),
    }
}

// Tells why the log in this file keeps nothing more, unless it is for want of memory.
fn tell_log_fault<E: ByteOut>(
    alloc: Global,
    file: &str,
    why: JournalFault,
    errors: &mut E,
) -> ProgramFault
    ensures fault { result ≡ of_journal why }
    ensures cause { TellsCauseOf E.ByteOut result errors.old errors.new }
{
    let fault = ProgramFault::from(why);
    if !matches!(fault, ProgramFault::OutOfMemory) {
        tell_cause(alloc, file, &why, errors);
    }
    fault
}

// As `end_of`; and where nothing went wrong, it writes the dump to this file.
fn conclude<R: Host, E: ByteOut>(
    rt: &R,
    address: &str,
    served: &Served<Queue>,
    file: &str,
    errors: &mut E,
) -> Result<(), ProgramFault>
    ensures fault { IfSome served.now.fault (λ fault. result ≡ Err (of_server fault)) }
    ensures no_fault { served.now.fault ≡ None → IfErr result IsOfDump }
    ensures only { IfErr result (λ fault. IsOfServer fault ⊎ IsOfDump fault) }
    ensures cause { TellsCauseIn E.ByteOut result errors.old errors.new }
{
    end_of(rt.alloc(), address, served.fault, errors)?;
    write_dump(rt, &served.hall, file, errors)
}

// Writes the dump of the hall to the file.
fn write_dump<R: Host, E: ByteOut>(
    rt: &R,
    hall: &Hall<Queue>,
    file: &str,
    errors: &mut E,
) -> Result<(), ProgramFault>
    ensures fault { IfErr result IsOfDump }
    ensures cause { TellsCauseIn E.ByteOut result errors.old errors.new }
{
    let text = dump_of(rt.alloc(), hall)?;
    match write_file(rt, file, &text) {
        Ok(()) => Ok(()),
        Err(e) => Err(tell_file_fault(rt.alloc(), file, &e, errors)),
    }
}

// Writes this text to the file, in place of what it has.
fn write_file<R: Host>(rt: &R, file: &str, text: &[u8]) -> io::Result<()> {
    let mut to = File::create(rt, file)?;
    write_whole(&mut to, text)
}

// Writes all of the text, or fails.
fn write_whole<W: Write>(to: &mut W, text: &[u8]) -> io::Result<()>
    ensures whole { OnOk result (Appends (W.contents to.old) (W.contents to.new) text.now) }
{
    to.write_all(text)?;
    to.flush()
}

// The text of what happened in the hall, in which no line is wrong.
fn dump_of(alloc: Global, hall: &Hall<Queue>) -> Result<Vec<u8>, AllocError>
    ensures text { IfOk result (λ text. text.items ≡ dump_text (chronicle_of hall.now)) }
    ensures right { OnOk result (IsFaultless (chronicle_of hall.now)) }
{
    no_fault_in_a_dump();
    let mut text = Vec::new(alloc);
    hall.dump()?.write_text(&mut text)?;
    Ok(text)
}
