//! What clients are told that a server serves.
use crate::client::Client;
use crate::started::{free_port, start, words};
use beanpax::{Host, no_sockets};
use std::test::Fail;
use std::thread;

/// Two clients, each of which sends its second command after the reply to its first.
fn talk<H: Host>(rt: &H, port: u16) -> Option<bool> {
    let mut first = Client::connect(rt, port)?;
    let mut second = Client::connect(rt, port)?;
    let is_right = first.is_told(b"put 0 0 60 5\r\nhello\r\n", b"INSERTED 1\r\n")
        && second.is_told(b"reserve\r\n", b"RESERVED 1 5\r\nhello\r\n")
        && first.is_told(b"delete 1\r\n", b"NOT_FOUND\r\n")
        && second.is_told(b"delete 1\r\n", b"DELETED\r\n");
    Some(is_right)
}

#[test]
fn two_clients_wait_for_each_reply(rt: HostRuntime) -> Result<(), Fail> {
    let _sockets = no_sockets();
    let port = free_port(&rt)?;
    let line = format!(in rt.alloc(); "serve --sessions 2 --port {port}")?;
    let words = words(rt.alloc(), line.as_str())?;
    let (ended, talked) = thread::join(
        &rt,
        || {
            let _sockets = no_sockets();
            start(&rt, words.as_slice())
        },
        || {
            let _sockets = no_sockets();
            talk(&rt, port)
        },
    );
    let told = format!(in rt.alloc(); "listening on 127.0.0.1:{port}\n")?;
    assert_eq!(rt; talked, Some(true));
    assert_eq!(rt; ended.status, 0);
    assert_eq!(rt; ended.output.bytes(), told.as_bytes());
    assert!(rt; ended.errors.bytes().is_empty());
    Ok(())
}
