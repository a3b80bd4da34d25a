use bean_words::Name;

/// A tube, and the second at which its pause is over.
#[derive(Drop, PartialEq, Eq, PartialOrd, Ord)]
pub(crate) struct Pause {
    pub until: u64,
    pub tube: Name,
}
