// Files of the system that are found and not read to their ends.

use std::rt::Files;
use std::{fs, io};
use tpf_base::{Fault, Shelf};
use wire_real::DiskShelf;

/// How often the file is found: more often than a process may hold files open by the limits of most systems.
const FINDS: usize = 2000;

/// How many files this process holds open.
fn open_files<R: Files + AllocGlobal + Clone + Drop>(rt: &R) -> io::Result<usize> {
    let mut count: usize = 0;
    for entry in fs::read_dir(rt, "/proc/self/fd")? {
        let _ = entry?;
        count = count.saturating_add(1);
    }
    Ok(count)
}

/// Finds the file often, reads the first byte each time, and goes on to the next find. How often that came
/// out.
fn find_often<R: Files + AllocGlobal>(shelf: &mut DiskShelf<R>) -> usize {
    let mut found: usize = 0;
    for _ in 0..FINDS {
        let mut byte = [0u8; 1];
        if let Ok(file) = shelf.find("people.nq") {
            if shelf.read(file, &mut byte) == Ok(1) {
                found = found.saturating_add(1);
            }
        }
    }
    found
}

fn said(answer: &Result<usize, Fault>) -> &'static str {
    match answer {
        Ok(0) => "the end",
        Ok(_) => "some bytes",
        Err(Fault::Failed) => "failed",
        Err(Fault::OutOfMemory) => "out of memory",
    }
}

/// Finds two files, and answers of reads: of the first, which was let go of, and three of the second.
fn read_four<R: Files + AllocGlobal>(
    shelf: &mut DiskShelf<R>,
) -> Result<[Result<usize, Fault>; 4], Fault> {
    let mut bytes = [0u8; 65536];
    let first = shelf.find("people.nq")?;
    let second = shelf.find("all.rq")?;
    Ok([
        shelf.read(first, &mut bytes),
        shelf.read(second, &mut bytes),
        shelf.read(second, &mut bytes),
        shelf.read(second, &mut bytes),
    ])
}

/// The same of a new shelf.
fn answers_of<R: Files + AllocGlobal>(rt: &R) -> Result<[Result<usize, Fault>; 4], Fault> {
    let mut shelf = DiskShelf::new(rt);
    read_four(&mut shelf)
}

/// Which reads are answered so.
const READS: [&str; 4] = [
    "let go of by the next find",
    "the one found last",
    "behind its bytes",
    "and again",
];

/// Reads of a file that was let go of, and of one that was read to its end.
fn read_after<R: Files + Print + AllocGlobal>(rt: &R) -> io::Result<()> {
    let Ok(answers) = answers_of(rt) else {
        return Err(io::Error::other("a file was not found"));
    };
    for (read, answer) in READS.iter().zip(answers.iter()) {
        println!(rt; "{read}: {}", said(answer))?;
    }
    Ok(())
}

/// How often a file was found, and how many more files this process holds open then than before.
fn find_and_count<R: Files + AllocGlobal + Clone + Drop>(rt: &R) -> io::Result<(usize, usize)> {
    let before = open_files(rt)?;
    let mut shelf = DiskShelf::new(rt);
    let found = find_often(&mut shelf);
    Ok((found, open_files(rt)?.saturating_sub(before)))
}

/// Finds and drops files, and prints how many of them were held open at most.
pub fn found_and_dropped<R: Files + Print + AllocGlobal + Clone + Drop>(rt: &R) -> io::Result<()> {
    let (found, held) = find_and_count(rt)?;
    println!(rt; "found: {found}")?;
    println!(rt; "held open: {held}")?;
    read_after(rt)
}
