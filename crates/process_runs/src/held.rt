// What the steps of a row hold.

use std::io;
use std::net::Net;
use std::process::{Child, OpenProcess, Output, Processes};

/// A port of the loopback, and the server that listens there, if one does.
#[derive(Drop)]
pub struct Place<P: OpenProcess> {
    /// The server, until its end is waited for.
    pub child: Option<Child<P>>,
    pub port: u16,
    /// The address of its first page.
    pub base: String,
}

/// What the steps of a row hold. Places and connections have numbers in the order in which they came, from 0.
#[derive(Drop)]
pub struct Held<P: OpenProcess, S: Drop> {
    pub places: Vec<Place<P>>,
    /// The connections, none where one was closed.
    pub streams: Vec<Option<S>>,
    /// The program that was started last and is no server, until its end is waited for.
    pub client: Option<Child<P>>,
    /// How the program ended whose end was waited for last, and what it wrote.
    pub ended: Option<Output>,
    /// What was read last on a connection.
    pub answer: String,
}

/// What a row holds before its first step.
pub fn nothing_held<R: Processes + Net + AllocGlobal>(rt: &R) -> Held<R::Started, R::Stream> {
    Held {
        places: Vec::new(rt.alloc()),
        streams: Vec::new(rt.alloc()),
        client: None,
        ended: None,
        answer: String::new(rt.alloc()),
    }
}

/// Holds what was made, behind what is held.
pub fn hold<T: Drop>(list: &mut Vec<T>, made: io::Result<T>) -> io::Result<()> {
    list.push(made?)?;
    Ok(())
}

/// The number that a text is. Nothing has the number of a text that is none.
pub fn number_of(text: &str) -> usize {
    text.parse::<usize>().unwrap_or(usize::MAX)
}

/// Ends a program, if there is one.
fn end_program<P: OpenProcess>(program: &mut Option<Child<P>>) {
    if let Some(child) = program.as_mut() {
        let _ = child.kill();
        let _ = child.wait();
    }
}

/// Ends each program that still goes on: a server that does not end of itself, and any where something went wrong, since it
/// may wait for what does not come.
pub fn end_all<P: OpenProcess, S: Drop>(held: &mut Held<P, S>) {
    end_program(&mut held.client);
    for place in held.places.iter_mut() {
        end_program(&mut place.child);
    }
}
