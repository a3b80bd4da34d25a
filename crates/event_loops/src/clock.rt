use crate::fault::ServeFault;
use crate::mailbox::Mailbox;
use counted_hall::Seconds;
use std::sync::Wait;

/// What the thread of the clock does: it tells the loops of each second, until all is over.
pub(crate) fn run_clock<R: Wait, T: Seconds + Drop>(
    rt: &R,
    mailboxes: &[Mailbox],
    own: &Mailbox,
    mut seconds: T,
) -> Result<(), ServeFault> {
    for _ in rt.forever() {
        let Some(second) = seconds.next() else {
            return Ok(());
        };
        let is_over = own.is_over(rt);
        for mailbox in mailboxes {
            mailbox.tick(rt, second);
        }
        if is_over {
            return Ok(());
        }
    }
    unreachable!()
}
