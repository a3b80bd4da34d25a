ghost use Rattle.std.specs.Prelude.{Result};
ghost use Rattle.bean_words.specs.declared.op.Op.{Op};
ghost use Rattle.bean_words.specs.declared.reply.Reply.{Reply};
ghost use Rattle.session.specs.declared.faults.ServiceFault.{ServiceFault};

use crate::faults::ServiceFault;
use bean_words::{Op, Reply};

/// What obeys the operations of one client.
pub trait Service {
    // It before, the operation, its answer, and it after.
    ghost asks: { Self → Op → Result Reply ServiceFault → Self → Type 0 };

    // It before, the answer, and it after.
    ghost closes: { Self → Result Unit ServiceFault → Self → Type 0 };

    /// The reply to an operation.
    fn ask(&mut self, op: Op) -> Result<Reply, ServiceFault>
        ensures { asks self.old op result self.new };

    /// The client has left.
    fn close(&mut self) -> Result<(), ServiceFault>
        ensures { closes self.old result self.new };
}
