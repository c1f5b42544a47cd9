// A shelf in memory, which fails where it is told to.
ghost use Rattle.std.specs.Prelude.{ℕ, ◌≡◌, ◌≢◌, ◌+◌, ◌-◌, ◌^◌, ◌<◌, ◌≤◌, ◌⊎◌, ◌↔◌, ◌++◌, List, [], length, take, drop, min, Some, None, IsTrue, Err, IfOk, OnErr, IfSome, IfNone, IsErrOf, slice_get};
ghost use Rattle.tpf_base.specs.Outside.{content_of, FindsFile, ReadsFile};
ghost use Rattle.tpf_base.specs.Failures.{no_calls, is_next_due, room, CountsCall};
ghost use Rattle.memory_outside.specs.Files.{file_rest};

use std::alloc::Global;
use tpf_base::{Bytes, Failing, Failures, Fault, Names, Shelf, Text};

/// A file that was found: which of the contents, and how many of its bytes were read.
#[derive(Clone, Copy)]
pub struct Opened {
    which: usize,
    at: usize,
}

/// A shelf in memory, which tells its contents. Where a name stands twice the first counts.
///
/// Each call of `find` and of `read` counts, also one that ends in out of memory, and fails where
/// its `Failing` says so.
#[derive(Drop)]
pub struct MemShelf {
    files: Vec<(Text, Bytes)>,
    asked: Names,
    opened: Vec<Opened>,
    moved: u64,
    failures: Failures,
}

/// The first file with a name.
fn place_of(files: &[(Text, Bytes)], name: &str) -> Option<usize>
    ensures found { IfSome result (λ i. (file : List ℕ × List ℕ) × (slice_get files.now i ≡ Some file)
        × (content_of files.now name.now ≡ Some file.1)) }
    ensures missing { IfNone result (content_of files.now name.now ≡ None) }
{
    for (i, file) in files.iter().enumerate() {
        if file.0.as_str() == name {
            return Some(i);
        }
    }
    None
}

/// The bytes that are left of a file that was found.
fn bytes_left(files: &[(Text, Bytes)], opened: Opened) -> &[u8]
    ensures value { IfSome (file_rest files.now opened.which opened.at) (λ rest. rest ≡ result.now) }
    ensures fits { opened.at + length result.now < 2 ^ 64 }
{
    if opened.which >= files.len() {
        return &[];
    }
    let bytes = files[opened.which].1.as_slice();
    if opened.at >= bytes.len() {
        return &[];
    }
    &bytes[opened.at..]
}

/// Copies the front of these bytes, as many as may move, and says how many.
fn copy_front(failures: &Failures, moved: u64, from: &[u8], to: &mut [u8]) -> usize
    requires { (there : ℕ) → 0 < there → 0 < room failures.now.failing moved there }
    ensures amount { result ≡ room failures.now.failing moved (min (length to.old) (length from.now)) }
    ensures within { result ≤ length to.new }
    ensures fits { result ≤ length from.now }
    ensures bytes { from.now ≡ take result to.new ++ drop result from.now }
    ensures end { 0 < length to.old → result ≡ 0 → from.now ≡ [] }
{
    let n = failures.room(moved, to.len().min(from.len()));
    to[..n].copy_from_slice(&from[..n]);
    n
}

impl MemShelf {
    ghost use Rattle.memory_outside.specs.Memory.{shelf_files, shelf_given, shelf_moved, shelf_counts, shelf_state};

    /// A shelf with these files, each a name and its bytes, of which none was found yet. It takes no
    /// memory.
    pub fn new(alloc: Global, files: Vec<(Text, Bytes)>, failing: Failing) -> MemShelf
        ensures files { shelf_files result ≡ files.items }
        ensures given { shelf_given result ≡ 0 }
        ensures counts { shelf_counts result ≡ no_calls failing }
        ensures moved { shelf_moved result ≡ 0 }
        ensures found { (shelf_state result).found ≡ [] }
    {
        MemShelf {
            files,
            asked: Names::new(),
            opened: Vec::new(alloc),
            moved: 0,
            failures: Failures::new(failing),
        }
    }
}

impl Shelf for MemShelf {
    ghost use Rattle.memory_outside.specs.Memory.{shelf_files, shelf_given, shelf_rest, shelf_moved, shelf_counts, shelf_state};

    ghost state = { shelf_state };

    /// `Failed` exactly where the call is due, the name is not held, or all 2^32 numbers were given;
    /// after an error no number was given.
    #[tactic(auto, using(tpf_base::proofs::Rooms::spared_next))]
    fn find(&mut self, name: &str) -> Result<u32, Fault>
        ensures finds { FindsFile name.now (shelf_state self.old) (shelf_state self.new) result }
        ensures failed { IsErrOf result Fault.Failed
            → IsTrue (is_next_due (shelf_counts self.old) (shelf_moved self.old))
            ⊎ (content_of (shelf_files self.old) name.now ≡ None) ⊎ (2 ^ 32 ≤ shelf_given self.old) }
        ensures due { IsTrue (is_next_due (shelf_counts self.old) (shelf_moved self.old))
            → IsErrOf result Fault.Failed }
        ensures missing { content_of (shelf_files self.old) name.now ≡ None → IsErrOf result Fault.Failed }
        ensures counts { CountsCall (shelf_counts self.old) (shelf_counts self.new) result }
        ensures moved { shelf_moved self.new ≡ shelf_moved self.old }
    {
        self.asked = self.asked.with(name.as_bytes());
        if self.failures.is_next_due(self.moved) {
            self.failures.fail();
            return Err(Fault::Failed);
        }
        let number = self.opened.len();
        match place_of(&self.files, name) {
            Some(which) if number <= u32::MAX as usize => {
                match self.opened.push(Opened { which, at: 0 }) {
                    Ok(()) => Ok(number as u32),
                    Err(_) => Err(Fault::OutOfMemory),
                }
            }
            _ => {
                self.failures.fail();
                Err(Fault::Failed)
            }
        }
    }

    /// `Failed` exactly where the call is due, and then nothing was read; out of memory never comes.
    #[tactic(auto, using(tpf_base::proofs::Rooms::spared_next))]
    fn read(&mut self, file: u32, to: &mut [u8]) -> Result<usize, Fault>
        requires given { file < shelf_given self.old }
        requires room { 0 < length to.old }
        ensures reads { ReadsFile file to.new (shelf_state self.old) (shelf_state self.new) result }
        ensures failed { IsErrOf result Fault.Failed
            ↔ IsTrue (is_next_due (shelf_counts self.old) (shelf_moved self.old)) }
        ensures memory { result ≢ Err Fault.OutOfMemory }
        ensures amount { IfOk result (λ n. (rest : List ℕ) → shelf_rest self.old file ≡ Some rest
            → n ≡ room (shelf_counts self.old).failing (shelf_moved self.old) (min (length to.old) (length rest))) }
        ensures counts { CountsCall (shelf_counts self.old) (shelf_counts self.new) result }
        ensures moved { IfOk result (λ n. shelf_moved self.new ≡ min (shelf_moved self.old + n) (2 ^ 64 - 1)) }
        ensures still { OnErr result (shelf_moved self.new ≡ shelf_moved self.old) }
    {
        if self.failures.is_next_due(self.moved) {
            self.failures.fail();
            return Err(Fault::Failed);
        }
        let opened = self.opened[file as usize];
        let left = bytes_left(&self.files, opened);
        let n = copy_front(&self.failures, self.moved, left, to);
        self.opened[file as usize].at = opened.at + n;
        self.moved = self.moved.saturating_add(n as u64);
        Ok(n)
    }
}
