ghost use Rattle.std.specs.Prelude.{◌≡◌, IfOk, IfErr};
ghost use Rattle.chronicle_text.specs.Dump.{dump_text};
ghost use Rattle.chronicle_text.specs.Values.{IsChronicleValue};
ghost use Rattle.chronicle_text.specs.Faults.{IsReadFault};

use crate::draft::ChronicleDraft;
use crate::entry::read_entry;
use crate::faults::ReadFault;
use bean_words::{Op, Reply};
use bstr::ByteSlice;
use recorder::Chronicle;
use std::alloc::Global;

/// The chronicle of a queue whose text this is. It takes time in proportion to the text.
pub fn read_text(alloc: Global, text: &[u8]) -> Result<Chronicle<Op, Reply>, ReadFault>
    ensures ok { IfOk result (λ chronicle. dump_text chronicle ≡ text.now) }
    ensures value { IfOk result IsChronicleValue }
    ensures err { IfErr result (IsReadFault text.now) }
{
    let mut draft = ChronicleDraft::Start;
    let mut rest = text;
    let mut number = 1;
    while let Some(end) = rest.find_byte(b'\n') {
        let (line, more) = rest.split_at(end + 1);
        let Some(entry) = read_entry(alloc, line)? else {
            return Err(ReadFault::BadLine(number));
        };
        let Some(next) = draft.next(alloc, entry)? else {
            return Err(ReadFault::BadLine(number));
        };
        draft = next;
        rest = more;
        number += 1;
    }
    match draft {
        ChronicleDraft::Whole(chronicle) if rest.is_empty() => Ok(chronicle),
        _ => Err(ReadFault::BadLine(number)),
    }
}
