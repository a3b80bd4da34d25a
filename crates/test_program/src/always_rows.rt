//! What a body can't do that always gives up, though each contract would allow it.
use beanpax::memory::{Ending, PieceReader, PieceWriter};
use beanpax::{End, run_bytes};

const INPUT: &[u8] = b"put 10 0 60 5\r\nhello\r\nreserve-with-timeout 0\r\ndelete 1\r\n";

const TRANSCRIPT: &[u8] = b"INSERTED 1\r\nRESERVED 1 5\r\nhello\r\nDELETED\r\n";

// A run that always says that its service stopped tells nothing.
#[test]
fn always_stopped(rt: HostRuntime) {
    for nodes in [1, 3, 7] {
        let mut reader = PieceReader::new(INPUT, 4096, Ending::End);
        let mut writer = PieceWriter::new(rt.alloc(), 4096, 4096);
        let end = run_bytes(rt.alloc(), nodes, 0, &mut reader, &mut writer);
        assert!(rt; end == Ok(End::Eof), "{nodes} nodes");
        assert_eq!(rt; writer.bytes(), TRANSCRIPT, "{nodes} nodes");
    }
}
