ghost use Rattle.std.specs.Prelude.{◌≡◌, ◌≤◌};
ghost use Rattle.chronicle_text.specs.Dump.{first_line, version_of};

use ballot::Members;
use bean_words::{Op, Reply};
use recorder::Chronicle;

/// The form of a dump.
#[derive(Clone, Copy, Debug, PartialEq, Eq)]
pub enum Version {
    /// With no weights, as each of them is 1.
    One,
    /// With the weights of the members, some of them not 1.
    Two,
}

impl Version {
    /// The version in which a chronicle of these members is written.
    pub fn of(members: Members) -> Version
        ensures { result ≡ version_of members }
    {
        if members.is_unweighted() {
            Version::One
        } else {
            Version::Two
        }
    }
}

/// The number of the line in the chronicle's text from which on stands what happened.
pub fn first_line(chronicle: &Chronicle<Op, Reply>) -> u64
    ensures line { result ≡ first_line chronicle.now }
    ensures few { result ≤ 4 }
{
    match Version::of(chronicle.members()) {
        Version::One => 3,
        Version::Two => 4,
    }
}
