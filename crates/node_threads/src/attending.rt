ghost use Rattle.std.specs.Prelude.{◌≡◌, ◌+◌, length, Err};
ghost use Rattle.bean_codec.specs.declared.profile.Profile.TheVariants.{Plain};
ghost use Rattle.session.specs.declared.faults.SessionFault.{SessionFault};
ghost use Rattle.session.specs.Serving.{ClosedOnce, Over, Partly, RunsShort, Served};
ghost use Rattle.session.specs.StreamStates.{LeavesStreams, streams_of};
ghost use Rattle.node_threads.specs.Attending.{Adds, TakesLeave, attendance_of};

use crate::attendant::Attendant;
use crate::gate::Gate;
use crate::shared::Shared;
use crate::watched_reader::WatchedReader;
use bean_words::{Op, Reply};
use hall::Ticket;
use object::Object;
use session::{ByteIn, ByteOut, End, SessionFault, serve};
use std::alloc::Global;
use std::sync::Wait;
use std::sync::ledger::{Ledger, Share};

/// A client that was served: the ticket of its session, how many commands its worker has handed in, its reader, and how
/// it ended.
#[derive(Drop)]
pub struct Attended<O: Object, C: Ledger, I> {
    pub ticket: Ticket<O>,
    pub commands: Share<C>,
    pub reader: I,
    pub ended: Result<End, SessionFault>,
}

/// Who serves a client: a worker by its number, and the node at which it hands in.
#[derive(Clone, Copy, Debug, PartialEq, Eq)]
pub struct Desk {
    pub worker: u32,
    pub node: u8,
}

/// Serves one client, with the ticket of its session as the service: what the client asks for is handed in, its answer is
/// noted in the ticket and told to the client, in the plain profile. It returns once the client has left, or its session
/// broke off.
pub fn attend<
    O: Object<Op = Op, Reply = Reply>,
    S: Ledger,
    C: Ledger,
    R: Wait,
    G: Gate,
    I: ByteIn,
    W: ByteOut,
>(
    rt: &R,
    alloc: Global,
    shared: &Shared<O, S, C>,
    commands: Share<C>,
    ticket: Ticket<O>,
    reader: I,
    writer: &mut W,
    desk: Desk,
    gate: &G,
) -> Attended<O, C, I>
    requires { commands.parts ≡ 1 }
    ensures one_part { result.commands.parts ≡ 1 }
    ensures counted { result.commands.amount + length ticket.acts
        ≡ commands.amount + length result.ticket.acts }
    ensures told { Served Plain Adds TakesLeave (attendance_of ticket commands.amount)
        (attendance_of result.ticket result.commands.amount)
        (streams_of I.ByteIn W.ByteOut reader writer.old)
        (streams_of I.ByteIn W.ByteOut result.reader writer.new) result.ended }
    ensures streams { LeavesStreams (streams_of I.ByteIn W.ByteOut reader writer.old)
        (streams_of I.ByteIn W.ByteOut result.reader writer.new) result.ended }
    // its end is never refused, so that memory was short before the session went well
    ensures out_of_memory { result.ended ≡ Err SessionFault.OutOfMemory →
        Over (I.remaining reader) (I.remaining result.reader)
        (W.contents writer.old) (W.contents writer.new)
        (λ input output. ClosedOnce TakesLeave
        (λ s. Partly Plain Adds (attendance_of ticket commands.amount) s input output)
        (attendance_of result.ticket result.commands.amount)) }
    ensures ran_short { result.ended ≡ Err SessionFault.OutOfMemory →
        Over (I.remaining reader) (I.remaining result.reader)
        (W.contents writer.old) (W.contents writer.new)
        (λ input output. ClosedOnce TakesLeave
        (λ s. RunsShort Plain Adds (attendance_of ticket commands.amount) s input output)
        (attendance_of result.ticket result.commands.amount)
        × (I.has_ended result.reader ≡ I.has_ended reader)) }
{
    let mut reader = WatchedReader {
        reader,
        gate,
        worker: desk.worker,
    };
    let mut attendant = Attendant {
        rt,
        shared,
        gate,
        desk,
        ticket,
        commands,
    };
    let ended = serve(alloc, &mut reader, writer, &mut attendant);
    Attended {
        ticket: attendant.ticket,
        commands: attendant.commands,
        reader: reader.reader,
        ended,
    }
}
