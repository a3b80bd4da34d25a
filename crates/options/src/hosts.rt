ghost use Rattle.std.specs.Prelude.{◌≡◌, IfSome, IsNone};
ghost use Rattle.std.specs.declared.net.ip_addr.IpAddr.{IpAddr as Ip};
ghost use Rattle.options.specs.Hosts.{IsInBrackets, Names};

use std::net::{IpAddr, Ipv4Addr, Ipv6Addr};

/// The address that the text names.
pub(crate) fn host_in(text: &str) -> Option<IpAddr>
    ensures some { IfSome result (Names text.now) }
    ensures none { IsNone result → (host : Ip) → ¬ (Names text.now host) }
{
    if text == "localhost" {
        return Some(IpAddr::V4(Ipv4Addr::LOCALHOST));
    }
    match text.parse() {
        Ok(host) => Some(host),
        Err(_) => host_in_brackets(text),
    }
}

// The IPv6 address that stands in brackets.
fn host_in_brackets(text: &str) -> Option<IpAddr>
    ensures some { IfSome result (IsInBrackets text.now) }
    ensures none { IsNone result → (host : Ip) → ¬ (IsInBrackets text.now host) }
{
    let inner = text.strip_prefix('[')?.strip_suffix(']')?;
    let ip: Ipv6Addr = inner.parse().ok()?;
    Some(IpAddr::V6(ip))
}
