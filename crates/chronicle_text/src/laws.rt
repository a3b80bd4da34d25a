ghost use Rattle.std.specs.Prelude.{◌≡◌, ℕ, List};
ghost use Rattle.bean_words.specs.declared.op.Op.{Op};
ghost use Rattle.bean_words.specs.declared.reply.Reply.{Reply};
ghost use Rattle.recorder.specs.Chronicles.{Chronicle, IsChronicle};
ghost use Rattle.chronicle_text.specs.Dump.{dump_text};
ghost use Rattle.chronicle_text.specs.Reading.{IsBadLine};
ghost use Rattle.chronicle_text.specs.Fits.{FitsChronicle};
ghost use Rattle.chronicle_text.specs.Values.{IsChronicleValue};

/// Two chronicles of queues have one text only where they are one.
pub fn one_chronicle()
    ensures { (c d : Chronicle Op Reply) → IsChronicle c → IsChronicle d → FitsChronicle c
        → FitsChronicle d →
        dump_text c ≡ dump_text d → c ≡ d }
{}

/// The same of chronicles as their types keep them: each that was written or read is one (`Chronicle::write_text`,
/// `read_text`).
pub fn one_dump()
    ensures { (c d : Chronicle Op Reply) → IsChronicleValue c → IsChronicleValue d
        → dump_text c ≡ dump_text d → c ≡ d }
{}

/// A text has one bad line at most.
pub fn one_bad_line()
    ensures { (text : List ℕ) (n m : ℕ) → IsBadLine n text → IsBadLine m text → n ≡ m }
{}
