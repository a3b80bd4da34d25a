use std::fs::File;
use std::io::Eprint;
use std::net::{Net, TcpListener, TcpStream};
use std::rt::{Clock, Files};
use std::sync::Wait;
use std::thread::Threads;

/// What the program takes of the machine beside its words and streams: sockets, a clock, files,
/// threads, and leave to wait; and standard error, for what a server has to tell while it serves.
pub trait Host: Net<Listener = TcpListener, Stream = TcpStream>
    + Clock
    + Eprint
    + Files<File = File>
    + Threads
    + Wait
    + AllocGlobal
    + Sync {}

impl<
    R: Net<Listener = TcpListener, Stream = TcpStream>
        + Clock
        + Eprint
        + Files<File = File>
        + Threads
        + Wait
        + AllocGlobal
        + Sync,
> Host for R {}

/// No sockets. Whoever hands on a runtime as a `Host` names the types of its sockets by this call.
pub fn no_sockets() -> (Option<TcpListener>, Option<TcpStream>) {
    (None, None)
}
