ghost use Rattle.std.specs.Prelude.{◌≡◌, ◌+◌, ◌-◌, ◌^◌, min};

use crate::chain::Chain;
use crate::head::LogHead;
use crate::version::LogVersion;
use ballot::Members;

/// The log that stands whole at a text's beginning.
#[derive(Clone, Copy, Debug, PartialEq, Eq)]
pub struct Whole {
    pub version: LogVersion,
    /// Whose log it is.
    pub members: Members,
    /// How its next line is chained.
    pub chain: Chain,
    /// How many lines it has: its head, and one for each command.
    pub lines: u64,
    /// How many bytes it has.
    pub bytes: u64,
}

impl Whole {
    /// A log that has a head of so many bytes alone.
    pub(crate) fn of_head(head: LogHead, chain: Chain, len: usize) -> Whole
        ensures { result ≡ record {
          version = head.version;
          members = head.members;
          chain = chain;
          lines = 1;
          bytes = len;
        } }
    {
        Whole {
            version: head.version,
            members: head.members,
            chain,
            lines: 1,
            bytes: len as u64,
        }
    }

    /// The same with a line more, of so many bytes, behind which the next is chained so.
    pub(crate) fn with_line(self, next: Chain, len: usize) -> Whole
        ensures { result ≡ record {
          version = self.version;
          members = self.members;
          chain = next;
          lines = min (self.lines + 1) (2 ^ 64 - 1);
          bytes = min (self.bytes + len) (2 ^ 64 - 1);
        } }
    {
        // A text has fewer than 2^64 bytes, so neither count reaches its bound.
        Whole {
            version: self.version,
            members: self.members,
            chain: next,
            lines: self.lines.saturating_add(1),
            bytes: self.bytes.saturating_add(len as u64),
        }
    }
}
