// Connections to servers.

use crate::held::{Place, number_of};
use std::io;
use std::io::{Read, Write};
use std::net::{Ipv4Addr, Net, OpenStream, TcpStream};
use std::process::Processes;
use std::time::Duration;

/// After how many seconds a reader gives up.
const PATIENCE: u64 = 20;

/// A connection to the place whose number a text is.
pub fn connect<R: Processes + Net>(
    rt: &R,
    places: &[Place<R::Started>],
    text: &str,
) -> io::Result<Option<R::Stream>> {
    let Some(place) = places.get(number_of(text)) else {
        return Err(io::Error::other("no server has this number"));
    };
    let stream = TcpStream::connect(rt, (Ipv4Addr::LOCALHOST, place.port))?;
    stream.set_read_timeout(Some(Duration::from_secs(PATIENCE)))?;
    Ok(Some(stream))
}

/// Reads what comes until the end of a connection, as text.
fn read_whole<R: AllocGlobal, S: Read>(rt: &R, stream: &mut S) -> io::Result<String> {
    let mut bytes = Vec::new(rt.alloc());
    stream.read_to_end(&mut bytes)?;
    match String::from_utf8(bytes) {
        Ok(text) => Ok(text),
        Err(_) => Err(io::Error::other("the answer is no text")),
    }
}

/// Sends a text, waits until something comes, or reads what comes to its end.
fn speak<R: AllocGlobal, S: OpenStream + Read + Write>(
    rt: &R,
    stream: &mut S,
    verb: &str,
    text: &str,
    answer: &mut String,
) -> io::Result<()> {
    match verb {
        "send" => stream.write_all(text.as_bytes()),
        "await" => {
            let mut byte = [0u8; 1];
            let _ = stream.peek(&mut byte)?;
            Ok(())
        }
        _ => {
            *answer = read_whole(rt, stream)?;
            Ok(())
        }
    }
}

/// Takes a step on the connection whose number stands in front of a text: closes it, or speaks on it.
pub fn on_connection<R: AllocGlobal, S: OpenStream + Read + Write + Drop>(
    rt: &R,
    streams: &mut Vec<Option<S>>,
    verb: &str,
    text: &str,
    answer: &mut String,
) -> io::Result<()> {
    let (number, rest) = match text.split_once(' ') {
        Some((number, rest)) => (number, rest),
        None => (text, ""),
    };
    let Some(place) = streams.get_mut(number_of(number)) else {
        return Err(io::Error::other("no connection has this number"));
    };
    if verb == "close" {
        drop(place.take());
        return Ok(());
    }
    match place {
        Some(stream) => speak(rt, stream, verb, rest, answer),
        None => Err(io::Error::other("the connection is closed")),
    }
}
