ghost use Rattle.std.specs.Prelude.{◌≡◌, true, false, codes, map, string_bytes};
ghost use Rattle.beanpax.specs.Program.{WritesText};
ghost use Rattle.options.specs.Words.{AskForOpenServer, AskForUnwrittenDump};

use crate::telling::tell_error;
use options::parse_words;
use session::ByteOut;
use std::alloc::Global;

/// What is told where the words name a file for a dump that is never written.
const UNWRITTEN: &str = "beanpax: without --sessions no dump is written\n";

/// What is told where clients of other machines come in.
const OPEN: &str = "beanpax: whoever reaches this address may use the queue\n";

/// Tells on the errors that the dump that the words name is never written, where that is so, before the program does what
/// they ask. Answers whether it told that. Where memory is refused, it tells nothing: then the program says so.
pub fn warn<E: ByteOut>(alloc: Global, words: &[String], errors: &mut E) -> bool
    ensures told { result ≡ true → AskForUnwrittenDump (map string_bytes words.now)
        × WritesText (E.contents errors.old) (E.contents errors.new) (E.has_failed errors.new)
        (codes "beanpax: without --sessions no dump is written\n") }
    ensures silent { result ≡ false → errors.new ≡ errors.old }
{
    let Ok(action) = parse_words(alloc, words) else {
        return false;
    };
    if !action.has_unwritten_dump() {
        return false;
    }
    tell_error(UNWRITTEN, errors);
    true
}

/// Tells on the errors that whoever reaches the server may use its queue, where it is to listen at another address than the
/// machine's own loopback. Answers whether it told that. Where memory is refused, it tells nothing: then the program says so.
pub fn warn_of_host<E: ByteOut>(alloc: Global, words: &[String], errors: &mut E) -> bool
    ensures told { result ≡ true → AskForOpenServer (map string_bytes words.now)
        × WritesText (E.contents errors.old) (E.contents errors.new) (E.has_failed errors.new)
        (codes "beanpax: whoever reaches this address may use the queue\n") }
    ensures silent { result ≡ false → errors.new ≡ errors.old }
{
    let Ok(action) = parse_words(alloc, words) else {
        return false;
    };
    if !action.has_open_server() {
        return false;
    }
    tell_error(OPEN, errors);
    true
}
