// Bytes both ways, dials and waits.
use crate::line::Line;
use crate::long::long_bytes;
use echo_server::{Echo, EchoServer};
use loop_wire::{LoopWire, Several};
use std::alloc::Global;
use std::test::Fail;
use tpf_base::{Dial, Failing, Fault, Wire};

/// How many bytes of a text are sent, whether these come back, and whether some calls stalled and some
/// brought less than was there.
fn echoed(alloc: Global, seed: u64, text: &[u8]) -> Result<(usize, bool, bool, bool), Fail> {
    let mut line = Line::new(alloc, seed)?;
    let sent = line.send_all(text);
    let is_same = line.recv_all(alloc)?.as_slice() == text;
    Ok((sent, is_same, line.stalls > 0, line.cuts > 0))
}

#[test]
fn every_seed_brings_the_same_bytes(rt: HostRuntime) -> Result<(), Fail> {
    let text = long_bytes(rt.alloc(), 9000)?;
    for seed in 0..10 {
        let got = echoed(rt.alloc(), seed, text.as_slice())?;
        assert_eq!(rt; got, (9000, true, true, true), "{seed}");
    }
    Ok(())
}

#[test]
fn a_dial_that_is_due_fails(rt: HostRuntime) {
    let alloc = rt.alloc();
    let mut wire: LoopWire<Echo> = LoopWire::new(alloc, EchoServer::new(7), 1, Failing::Dials(2));
    assert_eq!(rt; wire.dial("a", 80), Ok(0));
    assert_eq!(rt; wire.dial("b", 80), Err(Fault::Failed));
    assert_eq!(rt; wire.dial("c", 80), Ok(1));
    assert_eq!(rt; wire.links(), 2);
}

#[test]
fn a_wait_with_no_ripe_link_fails(rt: HostRuntime) {
    let alloc = rt.alloc();
    let mut wire: LoopWire<Echo> = LoopWire::new(alloc, EchoServer::new(7), 1, Failing::Never);
    let failed = Err(Fault::Failed);
    let got = (wire.wait(), wire.dial("a", 80), wire.wait());
    assert_eq!(rt; got, (failed, Ok(0), failed));
    assert_eq!(rt; wire.idle(), 0);
}

#[test]
fn a_dial_where_no_server_stands_fails(rt: HostRuntime) -> Result<(), Fail> {
    let mut servers = Vec::new(rt.alloc());
    servers.push(EchoServer::new(7))?;
    servers.push(EchoServer::new(8))?;
    let mut wire: LoopWire<Echo, Several> = LoopWire::to_servers(
        rt.alloc(),
        servers,
        1,
        Failing::Never,
    );
    assert_eq!(rt; wire.dial("a", 7), Ok(0));
    assert_eq!(rt; wire.dial("a", 9), Err(Fault::Failed));
    assert_eq!(rt; wire.dial("b", 8), Ok(1));
    assert_eq!(rt; wire.links(), 2);
    Ok(())
}
