ghost use Rattle.std.specs.Prelude.{◌≡◌};
ghost use Rattle.bean_queue.specs.Effects.{role_after};

use bean_words::Op;
use session_store::Role;

/// What a session has done, once it asks for an operation: it has put a job, or asked for one.
pub(crate) fn role_after(op: &Op, role: Role) -> Role
    ensures { result ≡ role_after op.now role }
{
    match op {
        Op::Put { .. } => Role {
            has_put: true,
            ..role
        },
        Op::Reserve { .. } | Op::ReserveJob(_) => Role {
            has_reserved: true,
            ..role
        },
        _ => role,
    }
}
