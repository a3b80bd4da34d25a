ghost use Rattle.std.specs.Prelude.{◌≤◌};
ghost use Rattle.ballot.specs.Members.{IsMembers};
ghost use Rattle.session.specs.StreamStates.{streams_of};
ghost use Rattle.beanpax.specs.Runs.{RunsOver};

use crate::simulation::Simulation;
use ballot::Members;
use bean_codec::{Profile, front_item};
use session::{ByteIn, ByteOut, End, SessionFault, serve_in};
use std::alloc::Global;

/// Answers one client on a hall of so many simulated nodes, 1 to 7, of a weight of 1 each: what `run_bytes_weighted` does.
pub fn run_bytes<R: ByteIn, W: ByteOut>(
    alloc: Global,
    nodes: u8,
    seed: u64,
    reader: &mut R,
    writer: &mut W,
) -> Result<End, SessionFault>
    requires some { 1 ≤ nodes }
    requires few { nodes ≤ 7 }
    ensures told { RunsOver Profile.Plain (streams_of R.ByteIn W.ByteOut reader.old writer.old)
        (streams_of R.ByteIn W.ByteOut reader.new writer.new) result }
{
    let Some(members) = Members::new(nodes) else {
        unreachable!()
    };
    run_bytes_weighted(alloc, members.weights(), seed, reader, writer)
}

/// Answers one client, in the plain profile, on a hall of simulated nodes of these weights: 1 to 7 of them, each 1 to 1000.
/// Each reply is written out before the next request is obeyed.
///
/// The seed draws what happens between the nodes: which letters are lost, repeated and reordered, and which nodes restart.
/// What is written doesn't depend on it, nor on how many nodes there are or what they weigh; but where 100,000 calls of the
/// hall bring no answer to a request, the service stops. It also stops where the client would have to wait for more than an
/// hour. A request for which there is no memory is refused, and is as if it had not been made.
pub fn run_bytes_weighted<R: ByteIn, W: ByteOut>(
    alloc: Global,
    weights: &[u32],
    seed: u64,
    reader: &mut R,
    writer: &mut W,
) -> Result<End, SessionFault>
    requires { IsMembers weights.now }
    ensures told { RunsOver Profile.Plain (streams_of R.ByteIn W.ByteOut reader.old writer.old)
        (streams_of R.ByteIn W.ByteOut reader.new writer.new) result }
{
    run_bytes_in(Profile::Plain, alloc, weights, seed, reader, writer)
}

/// The same in this profile.
pub fn run_bytes_in<R: ByteIn, W: ByteOut>(
    profile: Profile,
    alloc: Global,
    weights: &[u32],
    seed: u64,
    reader: &mut R,
    writer: &mut W,
) -> Result<End, SessionFault>
    requires { IsMembers weights.now }
    ensures told { RunsOver profile (streams_of R.ByteIn W.ByteOut reader.old writer.old)
        (streams_of R.ByteIn W.ByteOut reader.new writer.new) result }
{
    front_item();
    let Some(members) = Members::weighted(weights) else {
        unreachable!()
    };
    let mut simulation = Simulation::new(alloc, members, seed)?;
    serve_in(profile, alloc, reader, writer, &mut simulation)
}
