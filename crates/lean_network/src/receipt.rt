/// What came of the letter in front of a mail.
#[derive(Clone, Copy, Debug, PartialEq, Eq)]
pub enum Receipt {
    /// There was none.
    Nothing,
    /// It spoke of a forgotten slot alone, and was dropped.
    Forgotten,
    /// What was left of it was received.
    Received,
}
