// What the steps of a row do.

use crate::answers::show_step;
use crate::connections::{connect, on_connection};
use crate::files::found_and_dropped;
use crate::held::{Held, hold};
use crate::programs::{await_end, nobody, read_some, serve, start_client};
use std::net::Net;
use std::process::Processes;
use std::rt::Files;
use std::time::{Clock, Duration};
use std::{fs, io, thread};

/// Writes a file, or copies or renames it, where its name stands in front of a text.
fn change_file<R: Files>(rt: &R, verb: &str, text: &str) -> io::Result<()> {
    let Some((file, rest)) = text.split_once(' ') else {
        return Err(io::Error::other("a file stands alone"));
    };
    match verb {
        "write" => fs::write(rt, file, rest),
        "rename" => fs::rename(rt, file, rest),
        _ => {
            fs::copy(rt, file, rest)?;
            Ok(())
        }
    }
}

/// Takes a step with a connection, or one that shows something.
fn connection_step<R: Processes + Files + Net + Print + AllocGlobal>(
    rt: &R,
    held: &mut Held<R::Started, R::Stream>,
    verb: &str,
    text: &str,
) -> io::Result<()> {
    match verb {
        "connect" => {
            let stream = connect(rt, held.places.as_slice(), text);
            hold(&mut held.streams, stream)
        }
        "send" => on_connection(rt, &mut held.streams, verb, text, &mut held.answer),
        "await" => on_connection(rt, &mut held.streams, verb, text, &mut held.answer),
        "read" => on_connection(rt, &mut held.streams, verb, text, &mut held.answer),
        "close" => on_connection(rt, &mut held.streams, verb, text, &mut held.answer),
        _ => show_step(rt, &held.ended, held.answer.as_str(), verb, text),
    }
}

/// Takes a step with a program, or another one.
fn program_step<R: Processes + Files + Net + Print + AllocGlobal>(
    rt: &R,
    held: &mut Held<R::Started, R::Stream>,
    verb: &str,
    text: &str,
) -> io::Result<()> {
    match verb {
        "serve" => {
            let place = serve(rt, held.places.as_slice(), text);
            hold(&mut held.places, place)
        }
        "nobody" => hold(&mut held.places, nobody(rt)),
        "start" => start_client(rt, held, text),
        "some" => read_some(&mut held.client),
        "end" => await_end(rt, held, text),
        "run" => {
            start_client(rt, held, text)?;
            await_end(rt, held, "client")
        }
        _ => connection_step(rt, held, verb, text),
    }
}

/// Takes a step, a verb and its text.
pub fn step<R: Processes + Files + Net + Clock + Print + AllocGlobal + Clone + Drop>(
    rt: &R,
    held: &mut Held<R::Started, R::Stream>,
    verb: &str,
    text: &str,
) -> io::Result<()> {
    match verb {
        "say" => println!(rt; "{text}"),
        "files" => found_and_dropped(rt),
        "write" => change_file(rt, verb, text),
        "copy" => change_file(rt, verb, text),
        "rename" => change_file(rt, verb, text),
        "wait" => {
            let time = text.parse::<u64>().unwrap_or(0);
            thread::sleep(rt, Duration::from_millis(time));
            Ok(())
        }
        _ => program_step(rt, held, verb, text),
    }
}
