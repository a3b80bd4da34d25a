ghost use Rattle.std.specs.Prelude.{◌≡◌, ◌≢◌, true, is_some, codes, ◌++◌, string_bytes, None, Err, IfOk, IfErr, IfSome, OnOk, OnErr};
ghost use Rattle.std.specs.Io.KnownBytes.{Appends};
ghost use Rattle.std.specs.declared.net.ip_addr.IpAddr.TheVariants.{V4, V6};
ghost use Rattle.session.specs.Streams.{AppendsBeginning};
ghost use Rattle.log_file.specs.States.{IsIdle};
ghost use Rattle.beanpax.specs.declared.faults.ProgramFault.TheVariants.{ListenFailed, WriteFailed};
ghost use Rattle.beanpax.specs.Faults.{IsOfLog, IsOfOutput};
ghost use Rattle.beanpax.specs.Program.{IsServingFault, TellsCause, TellsCauseIn, TellsCauseOf, TellsCut, TellsOfServing, WritesMore};
ghost use Rattle.beanpax.specs.Openings.{HasLed, HasLedFrom};
ghost use Rattle.beanpax.specs.Servers.{TellsPort, address_text, listening_line};

use crate::faults::ProgramFault;
use crate::host::Host;
use crate::restoring::{Restored, restore_from};
use crate::start_fault::StartFault;
use crate::starting::{Started, start_from};
use crate::telling::{tell_cause, tell_number};
use ballot::Members;
use bean_queue::Queue;
use log_file::{Locked, OpenFault, OpenedLog, ReadFault, open_log};
use mio::net::TcpListener;
use object::Object;
use options::ServerOptions;
use session::{ByteOut, write_all};
use std::alloc::{AllocError, Global};
use std::fs::File;
use std::io::Write;
use std::net::{IpAddr, Ipv4Addr, Ipv6Addr, SocketAddr};

/// What a server has opened before it accepts the first client.
#[derive(Drop)]
pub(crate) struct Opened<'a> {
    pub(crate) port: OpenPort,
    pub(crate) log: Option<FromLog<'a>>,
}

/// A port that is listened at, and its address, as it is told.
#[derive(Drop)]
pub(crate) struct OpenPort {
    pub(crate) listener: TcpListener,
    pub(crate) address: String,
}

/// What the log in this file has led to: a hall that forgets, or one that keeps all for the dump in another file.
#[derive(Drop)]
pub(crate) enum FromLog<'a> {
    Forgetting {
        file: &'a str,
        started: Started<Locked<File>>,
    },
    Keeping {
        file: &'a str,
        restored: Restored<Locked<File>>,
        dump: &'a str,
    },
}

/// Listens at the address and port, starts from the log, where there is to be one, and tells where it listens then.
/// Where it can't listen, the errors are told why.
pub(crate) fn open_all<'a, R: Host, W: ByteOut, E: ByteOut>(
    rt: &R,
    options: &ServerOptions<'a>,
    output: &mut W,
    errors: &mut E,
) -> Result<Opened<'a>, ProgramFault>
    ensures has_log { IfOk result (λ opened. is_some opened.log ≡ is_some options.now.log) }
    ensures tells { TellsPort W.ByteOut output.old output.new options.now.host options.now.port result }
    ensures fault { IfErr result (IsServingFault options.now (W.has_failed output.new)) }
    ensures not_listening { result ≡ Err ListenFailed →
        (W.contents output.new ≡ W.contents output.old)
        × TellsCause E.ByteOut errors.old errors.new (address_text options.now.host options.now.port) }
    ensures told { TellsOfServing (options.now.log ≢ None) E.ByteOut result errors.old errors.new }
    ensures led { IfOk result (λ opened. IfSome opened.log
        (HasLed ⟦<Queue as Object>⟧.rules ⟦<Locked<File> as Write>⟧.contents options.now.members)) }
{
    let address = address_of(rt.alloc(), options.host, options.port)?;
    let listener = listen(rt, options, &address, errors)?;
    let log = match options.log {
        Some(file) => Some(start(rt, file, options, errors)?),
        None => None,
    };
    tell_port(rt.alloc(), &address, output)?;
    let port = OpenPort { listener, address };
    Ok(Opened { port, log })
}

// Starts from the log of this file, or begins one. Where it can't, the errors are told why.
fn start<'a, R: Host, E: ByteOut>(
    rt: &R,
    file: &'a str,
    options: &ServerOptions<'a>,
    errors: &mut E,
) -> Result<FromLog<'a>, ProgramFault>
    ensures fault { IfErr result IsOfLog }
    ensures told { (middle : E) × WritesMore E.ByteOut errors.old middle
        × TellsCauseIn E.ByteOut result middle errors.new }
    ensures led { IfOk result
        (HasLed ⟦<Queue as Object>⟧.rules ⟦<Locked<File> as Write>⟧.contents options.now.members) }
{
    match open_and_go_on(rt, file, options, errors) {
        Ok(from) => Ok(from),
        Err(fault) => Err(tell_start_fault(rt.alloc(), file, fault, errors)),
    }
}

// Opens the log of this file, or begins one, and goes on from it.
fn open_and_go_on<'a, R: Host, E: ByteOut>(
    rt: &R,
    file: &'a str,
    options: &ServerOptions<'a>,
    errors: &mut E,
) -> Result<FromLog<'a>, StartFault>
    ensures more { WritesMore E.ByteOut errors.old errors.new }
    ensures led { IfOk result
        (HasLed ⟦<Queue as Object>⟧.rules ⟦<Locked<File> as Write>⟧.contents options.now.members) }
{
    let opened = open_file(rt, file, options.members, errors)?;
    go_on(rt, file, opened, options, errors)
}

// Goes on from a log, with a hall that keeps all where there is to be a dump.
fn go_on<'a, R: Host, E: ByteOut>(
    rt: &R,
    file: &'a str,
    opened: OpenedLog<Locked<File>>,
    options: &ServerOptions<'a>,
    errors: &mut E,
) -> Result<FromLog<'a>, StartFault>
    ensures more { WritesMore E.ByteOut errors.old errors.new }
    ensures led { IfOk result (HasLedFrom ⟦<Queue as Object>⟧.rules ⟦<Locked<File> as Write>⟧.contents
        options.now.members opened) }
{
    let members = options.members;
    match options.dump {
        Some(dump) => {
            let restored = restore_from(rt, members, opened, errors)?;
            Ok(FromLog::Keeping {
                file,
                restored,
                dump,
            })
        }
        None => {
            let started = start_from(rt, members, opened, errors)?;
            Ok(FromLog::Forgetting { file, started })
        }
    }
}

// Tells why nothing starts from the log of this file, unless it is for want of memory.
fn tell_start_fault<E: ByteOut>(
    alloc: Global,
    file: &str,
    fault: StartFault,
    errors: &mut E,
) -> ProgramFault
    ensures fault { IsOfLog result }
    ensures cause { TellsCauseOf E.ByteOut result errors.old errors.new }
{
    let told = ProgramFault::from(fault);
    if matches!(told, ProgramFault::OutOfMemory) {
        return told;
    }
    match fault {
        StartFault::Unopened(
            OpenFault::FileFailed(e) | OpenFault::Unread(ReadFault::ReadFailed(e)),
        ) => tell_cause(alloc, file, &e, errors),
        _ => tell_cause(alloc, file, &fault, errors),
    }
    told
}

// Opens the log of this file, or begins one of these members, and tells what was cut off behind it.
fn open_file<R: Host, E: ByteOut>(
    rt: &R,
    file: &str,
    members: Members,
    errors: &mut E,
) -> Result<OpenedLog<Locked<File>>, StartFault>
    ensures idle { IfOk result (λ opened. IsIdle opened.log) }
    ensures cut { IfOk result (λ opened. TellsCut E.ByteOut errors.old errors.new opened.cut) }
    ensures silent { OnErr result (errors.new ≡ errors.old) }
{
    let opened = open_log(rt, file, members)?;
    tell_cut(opened.cut, errors);
    Ok(opened)
}

// Tells how many bytes were cut off behind the log, where there were some.
fn tell_cut<E: ByteOut>(bytes: u64, errors: &mut E)
    ensures { TellsCut E.ByteOut errors.old errors.new bytes }
{
    if bytes > 0 {
        tell_number(
            "beanpax: ",
            bytes,
            " bytes behind the log were cut off\n",
            errors,
        );
    }
}

// Listens at the address and port, which have this text. Where it can't, the errors are told why.
fn listen<R: Host, E: ByteOut>(
    rt: &R,
    options: &ServerOptions<'_>,
    address: &str,
    errors: &mut E,
) -> Result<TcpListener, ProgramFault>
    ensures fault { IfErr result (λ fault. fault ≡ ListenFailed) }
    ensures cause { OnErr result (TellsCause E.ByteOut errors.old errors.new address.now) }
    ensures silent { OnOk result (errors.new ≡ errors.old) }
{
    match TcpListener::bind(rt, SocketAddr::new(options.host, options.port)) {
        Ok(listener) => Ok(listener),
        Err(e) => {
            tell_cause(rt.alloc(), address, &e, errors);
            Err(ProgramFault::ListenFailed)
        }
    }
}

// Tells that it listens at this address.
fn tell_port<W: ByteOut>(alloc: Global, address: &str, output: &mut W) -> Result<(), ProgramFault>
    ensures told { OnOk result (Appends (W.contents output.old) (W.contents output.new)
        (codes "listening on " ++ address.now ++ codes "\n")) }
    ensures begins { AppendsBeginning (W.contents output.old) (W.contents output.new)
        (codes "listening on " ++ address.now ++ codes "\n") }
    ensures fault { IfErr result IsOfOutput }
    ensures write_failed { result ≡ Err WriteFailed → W.has_failed output.new ≡ true }
{
    let line = format!(in alloc; "listening on {address}\n")?;
    write_all(output, line.as_bytes()).map_err(|_| ProgramFault::WriteFailed)
}

// The text of an address and a port.
fn address_of(alloc: Global, host: IpAddr, port: u16) -> Result<String, AllocError>
    ensures { IfOk result (λ address. string_bytes address ≡ address_text host port) }
{
    match host {
        IpAddr::V4(ip) => ipv4_address(alloc, ip, port),
        IpAddr::V6(ip) => ipv6_address(alloc, ip, port),
    }
}

// The text of one of IPv4.
#[tactic(auto, unfolding(crate::specs::Servers::address_text))]
fn ipv4_address(alloc: Global, ip: Ipv4Addr, port: u16) -> Result<String, AllocError>
    ensures { IfOk result (λ address. string_bytes address ≡ address_text (V4 ip) port) }
{
    format!(in alloc; "{ip}:{port}")
}

// The text of one of IPv6.
#[tactic(auto, unfolding(crate::specs::Servers::address_text))]
fn ipv6_address(alloc: Global, ip: Ipv6Addr, port: u16) -> Result<String, AllocError>
    ensures { IfOk result (λ address. string_bytes address ≡ address_text (V6 ip) port) }
{
    format!(in alloc; "[{ip}]:{port}")
}
