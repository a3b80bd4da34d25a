use crate::faults::Faults;
use crate::gate::{Actor, Gate, Point};
use counted_hall::Mishap;

/// What a test hangs into a cluster: who is told where its threads stand, and who says what befalls its nodes.
#[derive(Drop)]
pub(crate) struct Rig<'a, G, F> {
    pub(crate) gate: &'a G,
    pub(crate) faults: &'a F,
}

impl<'a, G: Gate, F> Gate for Rig<'a, G, F> {
    fn at(&self, who: Actor, point: Point) {
        self.gate.at(who, point);
    }
}

impl<'a, G, F: Faults> Faults for Rig<'a, G, F> {
    fn choose(&self, node: u8, turn: u64) -> Mishap {
        self.faults.choose(node, turn)
    }
}
