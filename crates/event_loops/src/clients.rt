use bean_codec::Profile;
use mio::net::TcpListener;

/// Who is served: those that connect to this listener, up to so many, where that is said, and each in this profile.
#[derive(Drop)]
pub struct Clients {
    pub listener: TcpListener,
    pub sessions: Option<u32>,
    pub profile: Profile,
}
