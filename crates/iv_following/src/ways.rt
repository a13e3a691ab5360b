//! `listener_at`: the port at which keepers come.
use crate::wire::COMING;
use iv_running::SYSTEM;
use mio::net::TcpListener;
use mio::{Interest, Poll};
use std::net::{IpAddr, Ipv4Addr, SocketAddr};

/// Says that a keeper cannot come there.
pub(crate) fn no_way(rt: &HostRuntime, why: &str) -> u8 {
    let _ = eprintln!(rt; "gateway: the log: {why}");
    SYSTEM
}

/// A listener for keepers, of which the poll tells.
pub(crate) fn listener_at(rt: &HostRuntime, poll: &Poll, port: u16) -> Option<TcpListener> {
    let address = SocketAddr::from((IpAddr::V4(Ipv4Addr::LOCALHOST), port));
    let mut listener = TcpListener::bind(rt, address).ok()?;
    match poll
        .registry()
        .register(&mut listener, COMING, Interest::READABLE)
    {
        Ok(()) => Some(listener),
        Err(_) => None,
    }
}
