// The files of the system.
ghost use Rattle.std.specs.Prelude.{◌≡◌, ◌≤◌, [], length, IfOk};
ghost use Rattle.tpf_base.specs.Causes.{counted};

use crate::reading::read_some;
use std::fs;
use std::io::ErrorKind;
use std::rt::Files;
use tpf_base::{Fault, Names, OutOfMemory, Shelf, Text};

/// What became of the file that was found last.
#[derive(Drop)]
enum Last<F: Drop> {
    /// It is open.
    Open(F),
    /// It was read to its end.
    Ended,
    /// It was let go of: a read of it failed, or none was found since.
    LetGo,
}

/// The files of the system, found by their paths. It tells counts alone.
///
/// At most one file is open: the one that was found last, from its find until a read of it gave its end
/// or failed, or until the next find. The end is given again at each later read; a read of a file that was
/// let go of before its end is `Failed`.
///
/// A path that was found before must name a regular file: what a pipe, a terminal or a device gave is
/// gone, and who opens a pipe to which nobody writes waits for ever. So such a path can be read once, and
/// is `Failed` from then on.
///
/// A path that can't be opened and a read that fails answer `Failed`, and count; what the system
/// answers out of memory answers `OutOfMemory`, and leaves the file open. The count stops at 2^64 - 1.
#[derive(Drop)]
pub struct DiskShelf<'a, R: Files + AllocGlobal> {
    rt: &'a R,
    last: Last<R::File>,
    // The paths that were found, each once.
    found: Vec<Text>,
    asked: Names,
    given: u32,
    faults: u64,
}

impl<'a, R: Files + AllocGlobal> DiskShelf<'a, R> {
    /// A shelf of which no file was found yet. It takes no memory.
    pub fn new(rt: &'a R) -> DiskShelf<'a, R>
        ensures given { result.given ≡ 0 }
        ensures faults { result.faults ≡ 0 }
        ensures asked { result.asked.names ≡ [] }
    {
        DiskShelf {
            rt,
            last: Last::LetGo,
            found: Vec::new(rt.alloc()),
            asked: Names::new(),
            given: 0,
            faults: 0,
        }
    }

    /// What a call answers where the system failed so.
    fn fault_of(&mut self, kind: ErrorKind) -> Fault
        ensures given { self.new.given ≡ self.old.given }
        ensures asked { self.new.asked ≡ self.old.asked }
        ensures later { self.old.faults ≤ self.new.faults }
        ensures failed { result ≡ Fault.Failed → counted self.old.faults ≤ self.new.faults }
        ensures memory { result ≡ Fault.OutOfMemory → self.new.faults ≡ self.old.faults }
    {
        if kind == ErrorKind::OutOfMemory {
            return Fault::OutOfMemory;
        }
        self.faults = self.faults.saturating_add(1);
        Fault::Failed
    }

    fn was_found(&self, name: &str) -> bool {
        for path in &self.found {
            if path.as_str() == name {
                return true;
            }
        }
        false
    }

    /// Whether a path may be opened: one that was not found before, and a regular file.
    fn check(&self, name: &str) -> Result<(), ErrorKind> {
        if !self.was_found(name) {
            return Ok(());
        }
        match fs::metadata(self.rt, name) {
            Ok(metadata) if metadata.is_file() => Ok(()),
            Ok(_) => Err(ErrorKind::NotSeekable),
            Err(error) => Err(error.kind()),
        }
    }

    /// Keeps a path as found, once.
    fn keep(&mut self, name: &str) -> Result<(), OutOfMemory>
        ensures given { self.new.given ≡ self.old.given }
        ensures faults { self.new.faults ≡ self.old.faults }
        ensures asked { self.new.asked ≡ self.old.asked }
    {
        if !self.was_found(name) {
            self.found.push(Text::copy(self.rt.alloc(), name)?)?;
        }
        Ok(())
    }

    /// Opens a file, and lets go of the one that was open.
    fn open(&mut self, name: &str) -> Result<(), ErrorKind>
        ensures given { self.new.given ≡ self.old.given }
        ensures faults { self.new.faults ≡ self.old.faults }
        ensures asked { self.new.asked ≡ self.old.asked }
    {
        self.last = Last::LetGo;
        self.check(name)?;
        if self.keep(name).is_err() {
            return Err(ErrorKind::OutOfMemory);
        }
        match fs::open(self.rt, name) {
            Ok(file) => {
                self.last = Last::Open(file);
                Ok(())
            }
            Err(error) => Err(error.kind()),
        }
    }

    /// Reads the next bytes of the file that was found last.
    fn read_last(&mut self, to: &mut [u8]) -> Result<usize, ErrorKind>
        ensures given { self.new.given ≡ self.old.given }
        ensures faults { self.new.faults ≡ self.old.faults }
        ensures asked { self.new.asked ≡ self.old.asked }
        ensures length { length to.new ≡ length to.old }
        ensures within { IfOk result (λ n. n ≤ length to.old) }
    {
        let read = match &mut self.last {
            Last::Open(file) => read_some(file, to),
            Last::Ended => return Ok(0),
            Last::LetGo => return Err(ErrorKind::NotFound),
        };
        match read {
            Ok(0) => {
                self.last = Last::Ended;
                Ok(0)
            }
            Ok(n) => Ok(n),
            Err(error) => {
                let kind = error.kind();
                if kind != ErrorKind::OutOfMemory {
                    self.last = Last::LetGo;
                }
                Err(kind)
            }
        }
    }
}

impl<'a, R: Files + AllocGlobal> Shelf for DiskShelf<'a, R> {
    ghost use Rattle.wire_real.specs.Accounts.{shelf_of};

    ghost state = { λ s. shelf_of s.asked.names s.given s.faults };

    /// `Failed` where the path can't be opened or was found before and is no regular file, or no number
    /// is left.
    fn find(&mut self, name: &str) -> Result<u32, Fault> {
        self.asked = self.asked.with(name.as_bytes());
        let number = self.given;
        let Some(given) = number.checked_add(1) else {
            return Err(self.fault_of(ErrorKind::Other));
        };
        match self.open(name) {
            Ok(()) => {
                self.given = given;
                Ok(number)
            }
            Err(kind) => Err(self.fault_of(kind)),
        }
    }

    /// `Failed` where the system fails, and of a file that was let go of before its end.
    fn read(&mut self, file: u32, to: &mut [u8]) -> Result<usize, Fault> {
        if self.given.checked_sub(1) != Some(file) {
            return Err(self.fault_of(ErrorKind::NotFound));
        }
        match self.read_last(to) {
            Ok(n) => Ok(n),
            Err(kind) => Err(self.fault_of(kind)),
        }
    }
}
