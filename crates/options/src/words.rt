ghost use Rattle.std.specs.Prelude.{◌≡◌, ◌≢◌, ◌≤◌, ◌^◌, ◌-◌, [], Some, codes, true, false, map, string_bytes, unwrap_or, IfOk};
ghost use Rattle.clap.specs.Words.{app_of, first_value, found_of, one_text};
ghost use Rattle.clap.specs.declared.builder.command.Command.TheViews.{out-Command as fields_of};
ghost use Rattle.options.specs.declared.words.Action.TheVariants.{Serve};
ghost use Rattle.options.specs.declared.words.ServerOptions.{ServerOptions};
ghost use Rattle.options.specs.Hosts.{IsHostOf, IsLoopback};
ghost use Rattle.options.specs.Numbers.{IsNumberOr};
ghost use Rattle.options.specs.Weights.{AreMembersOf};
ghost use Rattle.options.specs.Words.{IsAskedBy, IsRunOf, IsServeOf, IsServerOf, has_unwritten_dump, profile_by};
ghost use Rattle.options.specs.Words.{program_command, run_command, serve_command};
ghost use Rattle.options.specs.Words.{inspect_command, version_command};
ghost use Rattle.options.specs.Words.{IsArgument, file_argument};
ghost use Rattle.options.specs.Words.{nodes_option, weights_option, seed_option, host_option, port_option};
ghost use Rattle.options.specs.Words.{workers_option, sessions_option, dump_option, log_option, sync_option, stats_option};

use crate::hosts::host_in;
use crate::weights::members_in;
use ballot::Members;
use bean_codec::Profile;
use clap::error::ErrorKind;
use clap::{Arg, ArgAction, ArgMatches, Command, Error, value_parser};
use std::alloc::{AllocError, Global};
use std::net::{IpAddr, Ipv4Addr};

/// The program's name and its version.
pub const VERSION: &str = "beanpax 0.1.0\n";

/// There are so many nodes at most.
const MOST_NODES: u8 = 7;

/// How many nodes there are where no word says it.
const DEFAULT_NODES: u8 = 3;

/// The port where no word names one. Clients of beanstalkd try it first.
const DEFAULT_PORT: u16 = 11300;

/// There are so many workers at most.
const MOST_WORKERS: u32 = 64;

/// How many workers there are where no word says it.
const DEFAULT_WORKERS: u32 = 4;

/// How many milliseconds pass between two syncs where no word says it: none, and each is done at once.
const DEFAULT_SYNC: u32 = 0;

/// What the words of a command line ask for.
#[derive(Drop)]
pub enum Action<'a> {
    /// A run.
    Run(RunOptions),
    /// A server.
    Serve(ServerOptions<'a>),
    /// What is found of the dump in this file.
    Inspect { file: &'a str },
    /// Nothing: the weights are outside their rule, or stand beside a number of nodes.
    BadWeights,
    /// Nothing: what stands for an address is none.
    BadHost,
    /// This help.
    Help(String),
    /// The program's name and version: [`VERSION`].
    Version,
    /// Nothing: the words are wrong, and the text says why.
    Wrong(String),
}

impl Action<'_> {
    /// Whether a server is asked for that is to write a dump at its end, and has none.
    pub fn has_unwritten_dump(&self) -> bool
        ensures asked { result ≡ true → (options : ServerOptions) × (self.now ≡ Serve options)
            × (has_unwritten_dump options ≡ true) }
        ensures told { (options : ServerOptions) → self.now ≡ Serve options
            → result ≡ has_unwritten_dump options }
    {
        match self {
            Action::Serve(options) => options.dump.is_some() && options.sessions.is_none(),
            _ => false,
        }
    }

    /// Whether a server is asked for at which clients of other machines come in.
    pub fn has_open_server(&self) -> bool
        ensures asked { result ≡ true → (options : ServerOptions) × (self.now ≡ Serve options)
            × (IsLoopback options.host → ⊥) }
        ensures told { (options : ServerOptions) → self.now ≡ Serve options
            → result ≡ false → IsLoopback options.host }
    {
        match self {
            Action::Serve(options) => !options.host.is_loopback(),
            _ => false,
        }
    }
}

/// What a run is to do.
#[derive(Drop)]
pub struct RunOptions {
    /// These nodes keep the queue.
    pub members: Members,
    /// The order of events is drawn from it.
    pub seed: u64,
    /// The client speaks it.
    pub profile: Profile,
}

/// What a server is to do.
#[derive(Drop)]
pub struct ServerOptions<'a> {
    /// It listens at this address.
    pub host: IpAddr,
    /// And there at this port.
    pub port: u16,
    /// These nodes keep the queue.
    pub members: Members,
    /// So many event loops serve the clients: 1 to 64.
    pub workers: u32,
    /// It ends after so many connections.
    pub sessions: Option<u32>,
    /// The file for the dump at its end.
    pub dump: Option<&'a str>,
    /// The file of the log from which it goes on, and in which it keeps what takes effect.
    pub log: Option<&'a str>,
    /// So many milliseconds may pass until a command in the log is synced.
    pub sync: u32,
    /// Clients speak it.
    pub profile: Profile,
}

/// What the words ask for; the first is the program's name.
pub fn parse_words<'a>(alloc: Global, words: &'a [String]) -> Result<Action<'a>, AllocError>
    ensures { IfOk result (IsAskedBy (map string_bytes words.now)) }
{
    match program_words(alloc)?.try_get_matches_from(words) {
        Ok(matches) => {
            if let Some(run) = matches.subcommand_matches("run") {
                return run_of(alloc, run);
            }
            if let Some(serve) = matches.subcommand_matches("serve") {
                return serve_of(alloc, serve);
            }
            if matches.subcommand_matches("version").is_some() {
                return Ok(Action::Version);
            }
            // A command is required, and `help` is never matched.
            match matches.subcommand_matches("inspect") {
                Some(inspect) => Ok(Action::Inspect {
                    file: file_of(inspect),
                }),
                None => unreachable!(),
            }
        }
        Err(error) => match error.kind() {
            ErrorKind::OutOfMemory => Err(AllocError),
            ErrorKind::DisplayHelp => Ok(Action::Help(text_of(alloc, &error)?)),
            ErrorKind::DisplayVersion => Ok(Action::Version),
            _ => Ok(Action::Wrong(text_of(alloc, &error)?)),
        },
    }
}

// The text of clap's error. Clap promises none; where it gave none, there is at least a line feed.
fn text_of(alloc: Global, error: &Error) -> Result<String, AllocError>
    ensures { IfOk result (λ text. string_bytes text ≢ []) }
{
    let mut text = error.to_string(alloc)?;
    if text.is_empty() {
        text.push('\n')?;
    }
    Ok(text)
}

// What the words ask of a run.
fn run_of<'a>(alloc: Global, run: &ArgMatches<'a>) -> Result<Action<'a>, AllocError>
    ensures { IfOk result
        (IsRunOf (one_text (found_of run.now)) (first_value (found_of run.now))) }
{
    let Some(members) = members_of(alloc, run)? else {
        return Ok(Action::BadWeights);
    };
    Ok(Action::Run(RunOptions {
        members,
        seed: seed_of(run),
        profile: profile_of(run),
    }))
}

// What the words ask of a server.
fn serve_of<'a>(alloc: Global, serve: &ArgMatches<'a>) -> Result<Action<'a>, AllocError>
    ensures { IfOk result
        (IsServeOf (one_text (found_of serve.now)) (first_value (found_of serve.now))) }
{
    let Some(members) = members_of(alloc, serve)? else {
        return Ok(Action::BadWeights);
    };
    let Some(host) = host_of(serve) else {
        return Ok(Action::BadHost);
    };
    Ok(Action::Serve(server_of(members, host, serve)))
}

// The options of a server of these nodes at this address.
fn server_of<'a>(members: Members, host: IpAddr, serve: &ArgMatches<'a>) -> ServerOptions<'a>
    requires members { AreMembersOf (one_text (found_of serve.now) (codes "nodes"))
        (first_value (found_of serve.now) (codes "weights")) (Some members) }
    requires host { IsHostOf (first_value (found_of serve.now) (codes "host")) (Some host) }
    ensures { IsServerOf (one_text (found_of serve.now)) (first_value (found_of serve.now)) result }
{
    ServerOptions {
        host,
        port: port_of(serve),
        members,
        workers: workers_of(serve),
        sessions: serve.get_one("sessions"),
        dump: serve.get_str("dump"),
        log: serve.get_str("log"),
        sync: sync_of(serve),
        profile: profile_of(serve),
    }
}

// The file that the words name. There is none where it is missing, and then clap finds the words wrong.
fn file_of<'a>(inspect: &ArgMatches<'a>) -> &'a str
    ensures { result.now ≡ unwrap_or (first_value (found_of inspect.now) (codes "file")) [] }
{
    inspect.get_str("file").unwrap_or("")
}

// The nodes that the words ask for, unless the weights are outside their rule or stand beside a number of nodes.
fn members_of(alloc: Global, found: &ArgMatches<'_>) -> Result<Option<Members>, AllocError>
    ensures { IfOk result (AreMembersOf (one_text (found_of found.now) (codes "nodes"))
        (first_value (found_of found.now) (codes "weights"))) }
{
    let Some(weights) = found.get_str("weights") else {
        return Ok(Members::new(nodes_of(found)));
    };
    if found.get_str("nodes").is_some() {
        return Ok(None);
    }
    members_in(alloc, weights)
}

// How many nodes the words ask for. The option takes no other numbers than these.
fn nodes_of(found: &ArgMatches<'_>) -> u8
    ensures nodes { IsNumberOr 3 1 7 (one_text (found_of found.now) (codes "nodes")) result }
    ensures some { 1 ≤ result }
    ensures few { result ≤ 7 }
{
    let nodes = found.get_one("nodes").unwrap_or(DEFAULT_NODES);
    if nodes >= 1 && nodes <= MOST_NODES {
        nodes
    } else {
        DEFAULT_NODES
    }
}

// How many workers the words ask for. The option takes no other numbers than these.
fn workers_of(serve: &ArgMatches<'_>) -> u32
    ensures workers { IsNumberOr 4 1 64 (one_text (found_of serve.now) (codes "workers")) result }
    ensures some { 1 ≤ result }
    ensures few { result ≤ 64 }
{
    let workers = serve.get_one("workers").unwrap_or(DEFAULT_WORKERS);
    if workers >= 1 && workers <= MOST_WORKERS {
        workers
    } else {
        DEFAULT_WORKERS
    }
}

// The address that the words name; none where they name something else.
fn host_of(serve: &ArgMatches<'_>) -> Option<IpAddr>
    ensures { IsHostOf (first_value (found_of serve.now) (codes "host")) result }
{
    match serve.get_str("host") {
        Some(text) => host_in(text),
        None => Some(IpAddr::V4(Ipv4Addr::LOCALHOST)),
    }
}

// The port that the words name.
fn port_of(serve: &ArgMatches<'_>) -> u16
    ensures { IsNumberOr 11300 1 65535 (one_text (found_of serve.now) (codes "port")) result }
{
    serve.get_one("port").unwrap_or(DEFAULT_PORT)
}

// How many milliseconds may pass until a sync.
fn sync_of(serve: &ArgMatches<'_>) -> u32
    ensures { IsNumberOr 0 0 3600000 (one_text (found_of serve.now) (codes "sync")) result }
{
    serve.get_one("sync").unwrap_or(DEFAULT_SYNC)
}

// The seed that the words give.
fn seed_of(run: &ArgMatches<'_>) -> u64
    ensures { IsNumberOr 0 0 (2 ^ 64 - 1) (one_text (found_of run.now) (codes "seed")) result }
{
    run.get_one("seed").unwrap_or(0)
}

// The profile that the words ask for.
fn profile_of(found: &ArgMatches<'_>) -> Profile
    ensures { result ≡ profile_by (one_text (found_of found.now) (codes "stats")) }
{
    let has_stats = found.get_one("stats").unwrap_or(false);
    if has_stats {
        Profile::Extended
    } else {
        Profile::Plain
    }
}

// The words that the program takes. Clap's own text of the version isn't printed.
fn program_words<'a>(alloc: Global) -> Result<Command<'a>, AllocError>
    ensures app { IfOk result (λ c. app_of c ≡ program_command) }
    ensures no_globals { IfOk result (λ c. (fields_of c).has_globals ≡ false) }
{
    Command::new(alloc, "beanpax")
        .about("A work queue")
        .version(VERSION)
        .subcommand_required(true)
        .subcommand(run_words(alloc)?)?
        .subcommand(serve_words(alloc)?)?
        .subcommand(inspect_words(alloc)?)?
        .subcommand(version_words(alloc))
}

// The words of `run`.
fn run_words<'a>(alloc: Global) -> Result<Command<'a>, AllocError>
    ensures app { IfOk result (λ c. app_of c ≡ run_command) }
    ensures no_globals { IfOk result (λ c. (fields_of c).has_globals ≡ false) }
{
    Command::new(alloc, "run")
        .about("Answers the requests of standard input on standard output")
        .arg(nodes_words(alloc))?
        .arg(weights_words(alloc))?
        .arg(seed_words(alloc))?
        .arg(stats_words(alloc))
}

// The words of `serve`.
fn serve_words<'a>(alloc: Global) -> Result<Command<'a>, AllocError>
    ensures app { IfOk result (λ c. app_of c ≡ serve_command) }
    ensures no_globals { IfOk result (λ c. (fields_of c).has_globals ≡ false) }
{
    Command::new(alloc, "serve")
        .about("Answers clients over TCP")
        .arg(host_words(alloc))?
        .arg(port_words(alloc))?
        .arg(nodes_words(alloc))?
        .arg(weights_words(alloc))?
        .arg(workers_words(alloc))?
        .arg(sessions_words(alloc))?
        .arg(dump_words(alloc))?
        .arg(log_words(alloc))?
        .arg(sync_words(alloc))?
        .arg(stats_words(alloc))
}

// The words of `inspect`.
fn inspect_words<'a>(alloc: Global) -> Result<Command<'a>, AllocError>
    ensures app { IfOk result (λ c. app_of c ≡ inspect_command) }
    ensures no_globals { IfOk result (λ c. (fields_of c).has_globals ≡ false) }
{
    Command::new(alloc, "inspect")
        .about("Tells what is wrong with a dump or a log, or that nothing is")
        .arg(file_words(alloc))
}

// The word `version`.
fn version_words<'a>(alloc: Global) -> Command<'a>
    ensures app { app_of result ≡ version_command }
    ensures no_globals { (fields_of result).has_globals ≡ false }
{
    Command::new(alloc, "version").about("Tells the version")
}

fn nodes_words<'a>(alloc: Global) -> Arg<'a>
    ensures { IsArgument nodes_option result }
{
    Arg::new(alloc, "nodes")
        .long("nodes")
        .value_name("N")
        .help("How many nodes there are: 1 to 7 [default: 3]")
        .value_parser(value_parser!(u8).range(1..=7))
}

fn weights_words<'a>(alloc: Global) -> Arg<'a>
    ensures { IsArgument weights_option result }
{
    Arg::new(alloc, "weights")
        .long("weights")
        .value_name("W,W,..")
        .help(
            "What each node weighs: 1 to 7 numbers from 1 to 1000, in place of --nodes [default: 1 each]",
        )
}

fn seed_words<'a>(alloc: Global) -> Arg<'a>
    ensures { IsArgument seed_option result }
{
    Arg::new(alloc, "seed")
        .long("seed")
        .value_name("S")
        .help("What the order of events is drawn from [default: 0]")
        .value_parser(value_parser!(u64))
}

fn host_words<'a>(alloc: Global) -> Arg<'a>
    ensures { IsArgument host_option result }
{
    Arg::new(alloc, "host").long("host").value_name("ADDR").help(
        "The IPv4 or IPv6 address, or localhost, that it listens at [default: 127.0.0.1]",
    )
}

fn port_words<'a>(alloc: Global) -> Arg<'a>
    ensures { IsArgument port_option result }
{
    Arg::new(alloc, "port")
        .long("port")
        .value_name("P")
        .help("The port that it listens at: 1 to 65535 [default: 11300]")
        .value_parser(value_parser!(u16).range(1..=65535))
}

fn workers_words<'a>(alloc: Global) -> Arg<'a>
    ensures { IsArgument workers_option result }
{
    Arg::new(alloc, "workers")
        .long("workers")
        .value_name("K")
        .help("How many event loops serve the clients: 1 to 64 [default: 4]")
        .value_parser(value_parser!(u32).range(1..=64))
}

fn sessions_words<'a>(alloc: Global) -> Arg<'a>
    ensures { IsArgument sessions_option result }
{
    Arg::new(alloc, "sessions")
        .long("sessions")
        .value_name("M")
        .help("It ends after so many connections: 1 to 1000000 [default: it goes on]")
        .value_parser(value_parser!(u32).range(1..=1_000_000))
}

fn dump_words<'a>(alloc: Global) -> Arg<'a>
    ensures { IsArgument dump_option result }
{
    Arg::new(alloc, "dump").long("dump").value_name("FILE").help(
        "Where what happened is written at the end; until then all of it is kept [default: nowhere]",
    )
}

fn log_words<'a>(alloc: Global) -> Arg<'a>
    ensures { IsArgument log_option result }
{
    Arg::new(alloc, "log").long("log").value_name("FILE").help(
        "Where what takes effect is kept, and from where it goes on at a start [default: nowhere]",
    )
}

fn sync_words<'a>(alloc: Global) -> Arg<'a>
    ensures { IsArgument sync_option result }
{
    Arg::new(alloc, "sync")
        .long("sync")
        .value_name("MS")
        .help(
            "How many milliseconds may pass before the log is written and synced; what is answered meanwhile may be lost: 0 to 3600000; without --log no effect [default: 0]",
        )
        .value_parser(value_parser!(u32).range(0..=3_600_000))
}

fn stats_words<'a>(alloc: Global) -> Arg<'a>
    ensures { IsArgument stats_option result }
{
    Arg::new(alloc, "stats")
        .long("stats")
        .action(ArgAction::SetTrue)
        .help("Also stats, stats-job, stats-tube and reserve-job")
}

fn file_words<'a>(alloc: Global) -> Arg<'a>
    ensures { IsArgument file_argument result }
{
    Arg::new(alloc, "file")
        .value_name("FILE")
        .help("The dump or the log")
        .required(true)
}
