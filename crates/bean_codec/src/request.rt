use bean_words::Op;

/// What a client asks.
#[derive(Drop, PartialEq, Eq)]
pub enum Request {
    /// The queue does it, and answers.
    Do(Op),
    /// The connection ends. Nothing is answered.
    Quit,
}

/// What is answered to a text that is no request.
#[derive(Clone, Copy, PartialEq, Eq, Debug)]
pub enum Fault {
    /// The line is too long, or its words are not those of its command.
    BadFormat,
    /// No command has this name.
    UnknownCommand,
    /// A body isn't followed by CR LF.
    ExpectedCrlf,
    /// A body is longer than the queue takes.
    JobTooBig,
}
