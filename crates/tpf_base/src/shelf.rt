// Files to read.
ghost use Rattle.std.specs.Prelude.{ℕ, ◌≡◌, ◌≢◌, ◌^◌, ◌<◌, ◌≤◌, List, length, true, Some, Err, IfOk, IsErrOf, vec_len};
ghost use Rattle.tpf_base.specs.Outside.{ShelfState, content_of, HoldsName, FindsFile, ReadsFile, LeavesOther, AsksOnce};
ghost use Rattle.tpf_base.specs.FileFaults.{HasFileCause};

use crate::Fault;
use std::alloc::{AllocError, Global};

/// A source of files, which are found by name and read from their beginning.
///
/// A find gives a number, under which the file is read. Each name that is asked for is told. The
/// count of faults never falls, and stops at 2^64 - 1.
pub trait Shelf {
    /// What it holds: the contents by name, where it tells them, the names that it was asked for, the
    /// numbers that were given and what is left under each, how often it failed, and whether it never
    /// does but for the number of files and for memory.
    ghost state: { Self → ShelfState };

    /// Gives a new number, also for a name found before. Its next bytes are the first of the
    /// contents.
    ///
    /// `Failed` for a name that it does not hold, where no number is left, and where the file can't
    /// be opened. After an error no number was given.
    fn find(&mut self, name: &str) -> Result<u32, Fault>
        ensures { FindsFile name.now (state self.old) (state self.new) result };

    /// Reads the next bytes of a file that was found into the beginning of the buffer, and says how
    /// many. 0 is the end.
    ///
    /// After an error the same bytes are still to be read.
    fn read(&mut self, file: u32, to: &mut [u8]) -> Result<usize, Fault>
        requires given { file < (state self.old).given }
        requires room { 0 < length to.old }
        ensures { ReadsFile file to.new (state self.old) (state self.new) result };
}

/// Why a file was not read.
#[derive(Clone, Copy, Debug, PartialEq, Eq)]
pub enum FileFault {
    /// The shelf failed. Its count of faults rose in this call.
    Failed,
    /// The file has more bytes than the caller allows.
    TooLong,
    /// Out of memory.
    OutOfMemory,
}

impl From<Fault> for FileFault {
    ghost use Rattle.tpf_base.specs.FileFaults.{file_fault_of};

    ghost from_gives = { λ x e. e ≡ file_fault_of x };

    fn from(fault: Fault) -> Self {
        match fault {
            Fault::Failed => FileFault::Failed,
            Fault::OutOfMemory => FileFault::OutOfMemory,
        }
    }
}

impl From<AllocError> for FileFault {
    ghost use Rattle.std.specs.Prelude.{◌≡◌};
    ghost use Rattle.tpf_base.specs.declared.shelf.FileFault.TheVariants.{OutOfMemory};

    ghost from_gives = { λ _ e. e ≡ OutOfMemory };

    fn from(_: AllocError) -> Self {
        FileFault::OutOfMemory
    }
}

/// How many bytes of a file are asked for at a time.
const PIECE: usize = 65536;

/// A buffer for one piece.
fn new_piece(alloc: Global) -> Result<Vec<u8>, AllocError>
    ensures { IfOk result (λ piece. 0 < vec_len piece) }
{
    vec![in alloc; 0u8; PIECE]
}

/// Reads what is left of a file, at most so many bytes.
fn read_rest<F: Shelf>(
    alloc: Global,
    shelf: &mut F,
    file: u32,
    most: usize,
    piece: &mut [u8],
) -> Result<Vec<u8>, FileFault>
    requires given { file < (F.state shelf.old).given }
    requires room { 0 < length piece.old }
    ensures whole { IfOk result (λ bytes. (rest : List ℕ) → (F.state shelf.old).rest file ≡ Some rest
        → rest ≡ bytes.items) }
    ensures within { IfOk result (λ bytes. length bytes.items ≤ most) }
    ensures too_long { IsErrOf result FileFault.TooLong
        → (rest : List ℕ) → (F.state shelf.old).rest file ≡ Some rest → most < length rest }
    ensures leaves { LeavesOther file (F.state shelf.old) (F.state shelf.new) }
    ensures cause { HasFileCause (F.state shelf.old).faults (F.state shelf.new).faults result }
    ensures spared { (F.state shelf.old).faultless ≡ true → result ≢ Err FileFault.Failed }
{
    let mut bytes = Vec::new(alloc);
    while bytes.len() <= most {
        let n = shelf.read(file, piece)?;
        if n == 0 {
            return Ok(bytes);
        }
        bytes.extend_from_slice(&piece[..n])?;
    }
    Err(FileFault::TooLong)
}

/// Reads the whole of a file of at most `most` bytes.
///
/// `TooLong` only where it has more bytes, and never `Ok` then. `Failed` only where the shelf's count
/// of faults rose, and never over a faultless shelf that holds the name and has a number left; after
/// any other answer the count is as before. The file is asked for once and no other is, and files
/// found before are left as they were.
pub fn read_file<F: Shelf>(
    alloc: Global,
    shelf: &mut F,
    name: &str,
    most: usize,
) -> Result<Vec<u8>, FileFault>
    ensures whole { IfOk result (λ bytes. (files : List (List ℕ × List ℕ))
        → (F.state shelf.old).told ≡ Some files → content_of files name.now ≡ Some bytes.items) }
    ensures within { IfOk result (λ bytes. length bytes.items ≤ most) }
    ensures too_long { IsErrOf result FileFault.TooLong
        → (files : List (List ℕ × List ℕ)) → (F.state shelf.old).told ≡ Some files
        → (bytes : List ℕ) × (content_of files name.now ≡ Some bytes) × (most < length bytes) }
    ensures asks { AsksOnce name.now (F.state shelf.old) (F.state shelf.new) }
    ensures cause { HasFileCause (F.state shelf.old).faults (F.state shelf.new).faults result }
    ensures holds { (F.state shelf.old).faultless ≡ true → HoldsName (F.state shelf.old).told name.now
        → (F.state shelf.old).given < 2 ^ 32 → result ≢ Err FileFault.Failed }
{
    let file = shelf.find(name)?;
    let mut piece = new_piece(alloc)?;
    read_rest(alloc, shelf, file, most, piece.as_mut_slice())
}
