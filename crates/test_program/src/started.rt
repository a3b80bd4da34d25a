//! The program, started with the words of a command line.
use beanpax::memory::{Ending, PieceReader, PieceWriter};
use beanpax::{ByteIn, ByteOut, Host, program};
use std::alloc::{AllocError, Global};
use std::io;
use std::net::{Ipv4Addr, SocketAddr, TcpListener};

/// What came of the program.
#[derive(Drop)]
pub struct Ended {
    pub status: u8,
    pub output: PieceWriter,
    pub errors: PieceWriter,
}

/// A port at which nobody listens.
pub fn free_port<H: Host>(rt: &H) -> io::Result<u16> {
    let listener = TcpListener::bind(rt, SocketAddr::from((Ipv4Addr::LOCALHOST, 0)))?;
    Ok(listener.local_addr()?.port())
}

/// The words of a command line, after the program's name.
pub fn words(alloc: Global, line: &str) -> Result<Vec<String>, AllocError> {
    let mut words = vec![in alloc; String::from_str(alloc, "beanpax")?]?;
    for word in line.split(' ') {
        words.push(String::from_str(alloc, word)?)?;
    }
    Ok(words)
}

/// Starts the program, which has no input, and waits for its end.
pub fn start<H: Host>(rt: &H, words: &[String]) -> Ended {
    let mut input = PieceReader::new(&[], 1, Ending::End);
    let mut output = PieceWriter::new(rt.alloc(), 4096, 4096);
    let mut errors = PieceWriter::new(rt.alloc(), 4096, 4096);
    let status = status_of(rt, words, &mut input, &mut output, &mut errors);
    Ended {
        status,
        output,
        errors,
    }
}

/// The program's status.
fn status_of<H: Host, R: ByteIn, W: ByteOut>(
    rt: &H,
    words: &[String],
    input: &mut R,
    output: &mut W,
    errors: &mut W,
) -> u8 {
    program(rt, words, input, output, errors)
}
