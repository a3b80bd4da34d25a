/// What a node has to do.
#[derive(Clone, Copy, Debug, PartialEq, Eq)]
pub struct Work {
    /// Receive a letter that is in its mail.
    pub mail: bool,
    /// Propose a request, for which a slot is open.
    pub request: bool,
    /// Perform the next decision, which it knows.
    pub decision: bool,
}

impl Work {
    /// Nothing.
    pub const NONE: Work = Work {
        mail: false,
        request: false,
        decision: false,
    };

    /// Whether there is something to do.
    pub fn is_some(&self) -> bool {
        self.mail || self.request || self.decision
    }
}
