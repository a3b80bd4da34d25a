/// What became of a submission.
#[derive(Clone, Copy)]
pub(crate) struct Fate {
    /// The place of its answer among all answers.
    pub(crate) answer: Option<usize>,
    /// Whether it took effect.
    pub(crate) is_placed: bool,
}
