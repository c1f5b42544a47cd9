// The addresses of a host.
use std::alloc::Global;
use std::io::ErrorKind;
use std::net::{Net, SocketAddr, ToSocketAddrs};

/// The addresses of a host at a port, as the system resolves its name, and in the system's order.
pub fn addresses_of<R: Net>(
    rt: &R,
    alloc: Global,
    host: &str,
    port: u16,
) -> Result<Vec<SocketAddr>, ErrorKind> {
    let found = match (host, port).to_socket_addrs(rt) {
        Ok(found) => found,
        Err(error) => return Err(error.kind()),
    };
    let mut addresses = Vec::new(alloc);
    for address in found {
        if addresses.push(address).is_err() {
            return Err(ErrorKind::OutOfMemory);
        }
    }
    Ok(addresses)
}
