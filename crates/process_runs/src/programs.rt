// This program, started with words.

use crate::held::{Held, Place, number_of};
use std::io::Read;
use std::net::{Ipv4Addr, Net, OpenListener, TcpListener};
use std::process::{Child, Command, OpenProcess, Processes, Stdio};
use std::rt::Files;
use std::{env, io};

/// How often a server is begun anew where another program took its port.
const TRIES: u32 = 50;

/// The status of a server that can't listen at its port.
const NO_DOOR: i32 = 12;

/// More bytes than the head of an answer to a query has, and fewer than that with the rows of a page.
const SOME: usize = 1024;

/// The address of the place whose number stands in a word behind an `@`; any other word itself.
fn address_or<'a, P: OpenProcess>(places: &'a [Place<P>], word: &'a str) -> &'a str {
    let Some(number) = word.strip_prefix('@') else {
        return word;
    };
    match places.get(number_of(number)) {
        Some(place) => place.base.as_str(),
        None => word,
    }
}

/// Adds the words of a text, with a blank between each two, behind those of a command.
fn add_words<P: OpenProcess>(
    command: &mut Command,
    places: &[Place<P>],
    words: &str,
) -> io::Result<()> {
    for word in words.split(' ') {
        command.arg(address_or(places, word))?;
    }
    Ok(())
}

/// Starts a command with the words of a text. What it writes goes to pipes.
fn start_with<R: Processes>(
    rt: &R,
    command: &mut Command,
    places: &[Place<R::Started>],
    words: &str,
) -> io::Result<Child<R::Started>> {
    add_words(command, places, words)?;
    command
        .stdin(Stdio::null())
        .stdout(Stdio::piped())
        .stderr(Stdio::piped());
    command.spawn(rt)
}

/// A command that starts this program.
fn this_program<R: Files + AllocGlobal>(rt: &R) -> io::Result<Command> {
    let program = env::current_exe(rt)?;
    Ok(Command::new(rt.alloc(), program.as_path())?)
}

/// Starts this program with the words of a text. What it writes goes to pipes.
fn start<R: Processes + Files + AllocGlobal>(
    rt: &R,
    places: &[Place<R::Started>],
    words: &str,
) -> io::Result<Child<R::Started>> {
    let mut command = this_program(rt)?;
    let started = start_with(rt, &mut command, places, words);
    drop(command);
    started
}

/// A port of the loopback that no program has just now.
fn free_port<R: Net>(rt: &R) -> io::Result<u16> {
    let listener = TcpListener::bind(rt, (Ipv4Addr::LOCALHOST, 0u16))?;
    let address = listener.local_addr()?;
    Ok(address.port())
}

/// A place at which nobody listens.
pub fn nobody<R: Processes + Net + AllocGlobal>(rt: &R) -> io::Result<Place<R::Started>> {
    let port = free_port(rt)?;
    let base = format!(in rt.alloc(); "http://127.0.0.1:{port}/data")?;
    Ok(Place {
        child: None,
        port,
        base,
    })
}

/// Whether what a server writes next is the line `ready`.
fn is_ready<P: OpenProcess>(child: &mut Child<P>) -> bool {
    let mut line = [0u8; 6];
    let read = match child.stdout.as_mut() {
        Some(output) => output.read_exact(&mut line),
        None => return false,
    };
    read.is_ok() && line.as_slice() == b"ready\n".as_slice()
}

/// Waits until a server can be asked, or gives `None` where it has ended since it can't listen at its port.
fn once_begun<P: OpenProcess + Drop>(mut child: Child<P>) -> io::Result<Option<Child<P>>> {
    if is_ready(&mut child) {
        return Ok(Some(child));
    }
    let status = child.wait()?;
    drop(child);
    if status.code() == Some(NO_DOOR) {
        Ok(None)
    } else {
        Err(io::Error::other("the server did not begin"))
    }
}

/// Begins a server at an address, of a file and with options. `None` where the address was taken meanwhile.
fn begin_at<R: Processes + Files + AllocGlobal>(
    rt: &R,
    places: &[Place<R::Started>],
    base: &str,
    text: &str,
) -> io::Result<Option<Child<R::Started>>> {
    let Some((file, options)) = text.split_once(' ') else {
        return Err(io::Error::other("a server has no options"));
    };
    let words = format!(in rt.alloc(); "serve {file} --base {base} {options}")?;
    let child = start(rt, places, words.as_str())?;
    once_begun(child)
}

/// Begins a server at a port that was free, or `None` where that was taken meanwhile.
fn try_serve<R: Processes + Files + Net + AllocGlobal>(
    rt: &R,
    places: &[Place<R::Started>],
    text: &str,
) -> io::Result<Option<Place<R::Started>>> {
    let mut place = nobody(rt)?;
    match begin_at(rt, places, place.base.as_str(), text) {
        Ok(Some(child)) => {
            place.child = Some(child);
            Ok(Some(place))
        }
        Ok(None) => {
            drop(place);
            Ok(None)
        }
        Err(error) => {
            drop(place);
            Err(error)
        }
    }
}

/// Begins a server of a file, with the options behind it, at a port of the loopback that the system chooses, and waits until
/// it can be asked.
pub fn serve<R: Processes + Files + Net + AllocGlobal>(
    rt: &R,
    places: &[Place<R::Started>],
    text: &str,
) -> io::Result<Place<R::Started>> {
    for _ in 0..TRIES {
        if let Some(place) = try_serve(rt, places, text)? {
            return Ok(place);
        }
    }
    Err(io::Error::other("each port was taken"))
}

/// Starts the client, with the words of a text.
pub fn start_client<R: Processes + Files + AllocGlobal, S: Drop>(
    rt: &R,
    held: &mut Held<R::Started, S>,
    words: &str,
) -> io::Result<()> {
    let child = start(rt, held.places.as_slice(), words)?;
    held.client = Some(child);
    Ok(())
}

/// Waits until the client has written some bytes.
pub fn read_some<P: OpenProcess>(client: &mut Option<Child<P>>) -> io::Result<()> {
    let mut bytes = [0u8; SOME];
    let Some(child) = client.as_mut() else {
        return Err(io::Error::other("there is no client"));
    };
    match child.stdout.as_mut() {
        Some(output) => output.read_exact(&mut bytes),
        None => Ok(()),
    }
}

/// Waits for the end of the server whose number a text is, or of the client where it is none.
pub fn await_end<R: AllocGlobal, P: OpenProcess + Drop, S: Drop>(
    rt: &R,
    held: &mut Held<P, S>,
    text: &str,
) -> io::Result<()> {
    let program = match held.places.get_mut(number_of(text)) {
        Some(place) => place.child.take(),
        None => held.client.take(),
    };
    let Some(child) = program else {
        return Err(io::Error::other("no such program goes on"));
    };
    held.ended = Some(child.wait_with_output(rt.alloc())?);
    Ok(())
}
