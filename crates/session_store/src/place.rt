ghost use Rattle.std.specs.Prelude.{◌≡◌};
ghost use Rattle.session_store.specs.Lines.{rank_place, time_out_place};

use crate::session::Wait;

/// Where a session stands in a line: by a number, and by its own where two have the same.
#[derive(Clone, Copy, Debug, PartialEq, Eq, PartialOrd, Ord)]
pub(crate) struct LinePlace {
    /// The rank of its wait, or the second in which that is over.
    pub order: u64,
    pub session: u32,
}

/// The place of a wait among those that end.
pub(crate) fn time_out_place(number: u32, wait: Option<Wait>) -> Option<LinePlace>
    ensures { result ≡ time_out_place number wait }
{
    let second = wait?.time_out?;
    Some(LinePlace {
        order: second,
        session: number,
    })
}

/// The place of a wait in the line of a tube.
pub(crate) fn rank_place(number: u32, wait: Option<Wait>) -> Option<LinePlace>
    ensures { result ≡ rank_place number wait }
{
    let rank = wait?.rank;
    Some(LinePlace {
        order: rank,
        session: number,
    })
}
