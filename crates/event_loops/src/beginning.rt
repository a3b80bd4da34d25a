use std::marker::Brand;

/// What was seen of a server's hall when the server began. It is a type, so that what lies under the lock can name it.
pub(crate) trait Beginning {
    ghost use Rattle.event_loops.specs.Courses.{Sight};

    ghost began: { Sight → Type 0 };
}

impl Beginning for Brand {
    ghost began = { λ _. Unit {0} };
}
