//! A client of a server.
use std::io::{Read, Write};
use std::net::{Ipv4Addr, Net, SocketAddr, TcpListener, TcpStream};
use std::rt::Clock;
use std::thread;
use std::time::Duration;

/// How often a client tries to connect, a hundredth of a second apart.
const TRIES: u32 = 3000;

/// So many seconds a client waits for a reply.
const PATIENCE: u64 = 30;

/// A connection to a server at the loopback.
#[derive(Drop)]
pub struct Client {
    stream: TcpStream,
}

impl Client {
    /// Connects to the server at this port, once it listens. What is sent goes out at once, and a
    /// reply that is waited for in vain is none.
    pub fn connect<H: Net<Listener = TcpListener, Stream = TcpStream> + Clock>(
        rt: &H,
        port: u16,
    ) -> Option<Client> {
        for _ in 0..TRIES {
            let address = SocketAddr::from((Ipv4Addr::LOCALHOST, port));
            if let Ok(stream) = TcpStream::connect(rt, address) {
                stream.set_nodelay(true).ok()?;
                stream
                    .set_read_timeout(Some(Duration::from_secs(PATIENCE)))
                    .ok()?;
                return Some(Client { stream });
            }
            thread::sleep(rt, Duration::from_millis(10));
        }
        None
    }

    /// Sends these bytes, and answers whether this is the reply.
    pub fn is_told(&mut self, bytes: &[u8], reply: &[u8]) -> bool {
        self.stream.write_all(bytes).is_ok() && self.hears(reply)
    }

    // Whether the next bytes are these.
    fn hears(&mut self, reply: &[u8]) -> bool {
        for byte in reply {
            if self.next_byte() != Some(*byte) {
                return false;
            }
        }
        true
    }

    fn next_byte(&mut self) -> Option<u8> {
        let mut heard = [0];
        match self.stream.read(&mut heard) {
            Ok(1) => Some(heard[0]),
            _ => None,
        }
    }
}
