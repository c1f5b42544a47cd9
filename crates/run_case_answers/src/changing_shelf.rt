// A file that changes.
ghost use Rattle.std.specs.Prelude.{◌≡◌, ◌≤◌, length};
ghost use Rattle.tpf_base.specs.Causes.{counted};

use tpf_base::{Fault, Names, Shelf};

/// A shelf with one file, `d`, which has the next of these contents each time that it is found. It can't be found once
/// more, and what was found before can't be read to its end any more. The shelf does not tell what it holds.
#[derive(Drop)]
pub struct ChangingShelf {
    contents: Vec<Vec<u8>>,
    asked: Names,
    given: u32,
    read: usize,
    faults: u64,
}

impl ChangingShelf {
    /// A shelf of which no file was found yet.
    pub fn new(contents: Vec<Vec<u8>>) -> ChangingShelf {
        ChangingShelf {
            contents,
            asked: Names::new(),
            given: 0,
            read: 0,
            faults: 0,
        }
    }

    /// Counts a fault.
    fn fail(&mut self) -> Fault
        ensures answer { result ≡ Fault.Failed }
        ensures faults { self.new.faults ≡ counted self.old.faults }
        ensures later { self.old.faults ≤ self.new.faults }
        ensures given { self.new.given ≡ self.old.given }
        ensures asked { self.new.asked ≡ self.old.asked }
    {
        self.faults = self.faults.saturating_add(1);
        Fault::Failed
    }
}

/// Copies the front of these bytes, and says how many.
fn copy_front(from: &[u8], to: &mut [u8]) -> usize
    ensures within { result ≤ length to.new }
    ensures length { length to.new ≡ length to.old }
{
    let n = from.len().min(to.len());
    to[..n].copy_from_slice(&from[..n]);
    n
}

/// What is left of the contents with this number behind so many bytes.
fn rest_of(contents: &[Vec<u8>], which: usize, read: usize) -> &[u8] {
    match contents.get(which) {
        Some(bytes) if read < bytes.len() => &bytes[read..],
        _ => &[],
    }
}

impl Shelf for ChangingShelf {
    ghost use Rattle.run_case_answers.specs.Doors.{untold_shelf};

    ghost state = { λ s. untold_shelf s.asked.names s.given s.faults };

    fn find(&mut self, name: &str) -> Result<u32, Fault> {
        self.asked = self.asked.with(name.as_bytes());
        let number = self.given;
        if name != "d" || number as usize >= self.contents.len() {
            return Err(self.fail());
        }
        let Some(given) = number.checked_add(1) else {
            return Err(self.fail());
        };
        self.given = given;
        self.read = 0;
        Ok(number)
    }

    fn read(&mut self, file: u32, to: &mut [u8]) -> Result<usize, Fault> {
        if self.given.checked_sub(1) != Some(file) {
            return Err(self.fail());
        }
        let n = copy_front(rest_of(&self.contents, file as usize, self.read), to);
        self.read = self.read.saturating_add(n);
        Ok(n)
    }
}
