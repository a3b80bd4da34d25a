ghost use Rattle.std.specs.Prelude.{◌≡◌, ◌<◌, ◌≤◌, ◌⊎◌, ◌++◌, ℕ, List, [], true, false, Err, length, IfOk, IfErr, OnOk, OnErr};
ghost use Rattle.std.specs.Io.KnownBytes.{Consumes, IsAtEnd, Keeps};
ghost use Rattle.session.specs.StreamStates.{LeavesStreams, WritesAll, streams_of};
ghost use Rattle.session.specs.Items.{Response, answer_text};
ghost use Rattle.session.specs.Held.{StandsBefore};
ghost use Rattle.session.specs.Serving.{Over, Conversed, Served, longest_piece, result_of};

use crate::faults::{End, ServiceFault, SessionFault};
use crate::service::Service;
use crate::session::Session;
use crate::streams::{ByteIn, ByteOut, Failed};
use crate::writing::write_all;
use bean_codec::{Profile, Request};
use bean_words::Op;
use std::alloc::Global;

/// The most bytes of a read.
const PIECE_LEN: usize = 4096;

// Writes out what the client is to be told.
fn send<W: ByteOut>(session: &mut Session, writer: &mut W) -> Result<(), Failed>
    ensures written { WritesAll W.ByteOut writer.old writer.new session.old.unsent result }
    ensures sent { OnOk result (session.new ≡ record session.old { unsent = []; sent_len = 0 }) }
{
    write_all(writer, session.unsent())?;
    let n = session.unsent().len();
    session.sent(n);
    Ok(())
}

// Asks the service, and takes down what it answers.
fn answer<S: Service>(session: &mut Session, service: &mut S, op: Op) -> Result<(), SessionFault>
    requires { session.old.is_open ≡ true }
    ensures ok { OnOk result ((answer : Response)
        × S.asks service.old op (result_of answer) service.new
        × (session.new
        ≡ record session.old {
          unsent = session.old.unsent ++ answer_text answer;
          is_open = false;
        })) }
    ensures err { IfErr result (λ fault.
        ((fault ≡ SessionFault.OutOfMemory) × (answer : Response)
        × S.asks service.old op (result_of answer) service.new)
        ⊎ ((fault ≡ SessionFault.ServiceStopped)
        × S.asks service.old op (Err ServiceFault.Stopped) service.new)) }
{
    match service.ask(op) {
        Ok(reply) => session.reply(&reply)?,
        Err(ServiceFault::Refused) => session.refused()?,
        Err(ServiceFault::Stopped) => return Err(SessionFault::ServiceStopped),
    }
    Ok(())
}

// Reads a piece for the session, which has room for it by then. It answers false at the end.
fn read_piece<R: ByteIn>(
    reader: &mut R,
    piece: &mut [u8],
    session: &mut Session,
) -> Result<bool, SessionFault>
    requires some { 0 < length piece.old }
    requires few { length piece.old ≤ longest_piece }
    ensures fed { IfOk result (λ some. some ≡ true
        → (bytes : List ℕ) × (0 < length bytes) × (length bytes ≤ longest_piece)
        × Consumes (R.remaining reader.old) (R.remaining reader.new) bytes
        × (session.new.unsent ≡ session.old.unsent) × (session.new.is_open ≡ session.old.is_open)
        × (session.new.profile ≡ session.old.profile)
        × ((text : List ℕ) → StandsBefore session.old text → StandsBefore session.new (text ++ bytes))) }
    ensures ended { IfOk result (λ some. some ≡ false
        → (R.has_ended reader.new ≡ true) × IsAtEnd (R.remaining reader.new)
        × Consumes (R.remaining reader.old) (R.remaining reader.new) []) }
    ensures err { IfErr result (λ fault.
        ((fault ≡ SessionFault.OutOfMemory) × (reader.new ≡ reader.old))
        ⊎ ((fault ≡ SessionFault.ReadFailed) × (R.has_failed reader.new ≡ true)
        × Keeps (R.remaining reader.old) (R.remaining reader.new))) }
    ensures goes_on { IfOk result (λ some. some ≡ true
        → R.has_ended reader.new ≡ R.has_ended reader.old) }
    ensures not_ended { OnErr result (R.has_ended reader.new ≡ R.has_ended reader.old) }
    ensures not_failed { OnOk result (R.has_failed reader.new ≡ R.has_failed reader.old) }
{
    session.make_room(piece.len())?;
    let n = reader.read(piece).map_err(|_| SessionFault::ReadFailed)?;
    if n == 0 {
        return Ok(false);
    }
    let Ok(()) = session.feed(&piece[..n]) else {
        unreachable!()
    };
    Ok(true)
}

// Serves the client as far as it goes, and doesn't close the service.
fn converse<R: ByteIn, W: ByteOut, S: Service>(
    profile: Profile,
    alloc: Global,
    reader: &mut R,
    writer: &mut W,
    service: &mut S,
) -> Result<End, SessionFault>
    ensures run { Over (R.remaining reader.old) (R.remaining reader.new) (W.contents writer.old)
        (W.contents writer.new)
        (λ input output. Conversed profile S.asks service.old service.new input output result) }
    ensures streams { LeavesStreams (streams_of R.ByteIn W.ByteOut reader.old writer.old)
        (streams_of R.ByteIn W.ByteOut reader.new writer.new) result }
    ensures not_ended { OnErr result (R.has_ended reader.new ≡ R.has_ended reader.old) }
{
    let mut session = Session::speaking(profile, alloc);
    let mut piece = [0; PIECE_LEN];
    'turns: for _turn in 0..u64::MAX {
        let found = session.next_ask()?;
        send(&mut session, writer).map_err(|_| SessionFault::WriteFailed)?;
        match found {
            None => {
                if !read_piece(reader, &mut piece, &mut session)? {
                    return Ok(End::Eof);
                }
            }
            Some(Request::Quit) => return Ok(End::Quit),
            Some(Request::Do(op)) => answer(&mut session, service, op)?,
        }
    }
    // No client lives for so many turns, each of which reads a byte or asks for an operation.
    Err(SessionFault::OutOfMemory)
}

/// Answers one client, in the plain profile: asks the service for each operation that is read, and writes each answer
/// out before the next ask. What follows a quit isn't asked for. However it ends, the service is closed once.
///
/// A refused ask is answered `OUT_OF_MEMORY`. A refused close is answered only where nothing else went wrong.
pub fn serve<R: ByteIn, W: ByteOut, S: Service>(
    alloc: Global,
    reader: &mut R,
    writer: &mut W,
    service: &mut S,
) -> Result<End, SessionFault>
    ensures told { Served Profile.Plain S.asks S.closes service.old service.new
        (streams_of R.ByteIn W.ByteOut reader.old writer.old)
        (streams_of R.ByteIn W.ByteOut reader.new writer.new) result }
    ensures streams { LeavesStreams (streams_of R.ByteIn W.ByteOut reader.old writer.old)
        (streams_of R.ByteIn W.ByteOut reader.new writer.new) result }
{
    serve_in(Profile::Plain, alloc, reader, writer, service)
}

/// The same in this profile.
pub fn serve_in<R: ByteIn, W: ByteOut, S: Service>(
    profile: Profile,
    alloc: Global,
    reader: &mut R,
    writer: &mut W,
    service: &mut S,
) -> Result<End, SessionFault>
    ensures told { Served profile S.asks S.closes service.old service.new
        (streams_of R.ByteIn W.ByteOut reader.old writer.old)
        (streams_of R.ByteIn W.ByteOut reader.new writer.new) result }
    ensures streams { LeavesStreams (streams_of R.ByteIn W.ByteOut reader.old writer.old)
        (streams_of R.ByteIn W.ByteOut reader.new writer.new) result }
{
    let ended = converse(profile, alloc, reader, writer, service);
    let closed = service.close();
    let end = ended?;
    match closed {
        Ok(()) => Ok(end),
        Err(ServiceFault::Refused) => Err(SessionFault::OutOfMemory),
        Err(ServiceFault::Stopped) => Err(SessionFault::ServiceStopped),
    }
}
