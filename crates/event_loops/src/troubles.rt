ghost use Rattle.std.specs.Prelude.{◌≡◌, ◌⊎◌, None, Some, pos};
ghost use Rattle.std_io.specs.IoError.{raw_os_error};
ghost use Rattle.event_loops.specs.declared.troubles.Trouble.TheVariants.{Connection, Listener, Shortage};

use std::io;

/// Linux's numbers where the process or the system has no descriptor left, no room in a buffer, or no memory: ENFILE,
/// EMFILE, ENOBUFS, ENOMEM.
const SHORTAGES: [i32; 4] = [23, 24, 105, 12];

/// Its numbers where one connection went wrong before it was accepted, as accept(2) lists them: EPERM, EINTR, EAGAIN,
/// ENOSR, ENONET, EPROTO, ENOPROTOOPT, EPROTONOSUPPORT, ESOCKTNOSUPPORT, EOPNOTSUPP, ENETDOWN, ENETUNREACH, ENETRESET,
/// ECONNABORTED, ECONNRESET, ETIMEDOUT, ECONNREFUSED, EHOSTDOWN, EHOSTUNREACH.
const OF_ONE_CONNECTION: [i32; 19] = [
    1, 4, 11, 63, 64, 71, 92, 93, 94, 95, 100, 101, 102, 103, 104, 110, 111, 112, 113,
];

/// What kept a client from being let in.
#[derive(Clone, Copy, Debug, PartialEq, Eq)]
pub(crate) enum Trouble {
    /// The system is short of something, which may be there again in a while.
    Shortage,
    /// This one connection went wrong; the next one may not.
    Connection,
    /// Nobody can connect any more.
    Listener,
}

/// What a call that accepts tells by its error. The clauses have ENFILE and EMFILE, ENOBUFS
/// and ENOMEM, ECONNABORTED, and what isn't the system's.
pub(crate) fn trouble_of(error: &io::Error) -> Trouble
    ensures no_file_left { (raw_os_error error.now ≡ Some (pos 23))
        ⊎ (raw_os_error error.now ≡ Some (pos 24)) → result ≡ Shortage }
    ensures no_room_left { (raw_os_error error.now ≡ Some (pos 105))
        ⊎ (raw_os_error error.now ≡ Some (pos 12)) → result ≡ Shortage }
    ensures aborted { raw_os_error error.now ≡ Some (pos 103) → result ≡ Connection }
    ensures not_of_the_system { raw_os_error error.now ≡ None → result ≡ Listener }
{
    match error.raw_os_error() {
        Some(number) if SHORTAGES.contains(&number) => Trouble::Shortage,
        Some(number) if OF_ONE_CONNECTION.contains(&number) => Trouble::Connection,
        _ => Trouble::Listener,
    }
}
