//! A call that is asked for.

use envelope::Protocol;

/// A call that is asked for at a port.
#[derive(Drop)]
pub struct PortCall<'a> {
    /// The protocol.
    pub protocol: Protocol,
    /// The service, by the name that the main file knows it by; a host may have bound it under that name.
    pub name: &'a [u8],
    /// The method.
    pub method: &'a [u8],
    /// The struct of its arguments, as a value text.
    pub args: &'a [u8],
    /// Whether the service's name stands in front of the method's (Thrift: TMultiplexedProtocol).
    pub multiplexed: bool,
    /// The port, at the address 127.0.0.1.
    pub port: u16,
}
