use crate::gate::{Actor, Gate, Point};
use session::{ByteIn, Failed};

/// A reader of whose every piece a gate is told.
#[derive(Drop)]
pub(crate) struct WatchedReader<'a, I, G> {
    pub(crate) reader: I,
    pub(crate) gate: &'a G,
    pub(crate) worker: u32,
}

impl<'a, I: ByteIn, G: Gate> ByteIn for WatchedReader<'a, I, G> {
    ghost remaining = { λ w. I.remaining w.reader };

    ghost has_failed = { λ w. I.has_failed w.reader };

    ghost has_ended = { λ w. I.has_ended w.reader };

    fn read(&mut self, buf: &mut [u8]) -> Result<usize, Failed> {
        let read = self.reader.read(buf);
        self.gate.at(Actor::Worker(self.worker), Point::Piece);
        read
    }
}
