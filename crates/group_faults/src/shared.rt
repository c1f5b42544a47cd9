// A label of a blank node that stands in two blocks.
ghost use Rattle.std.specs.Prelude.{◌≡◌, ◌<◌, ◌≤◌, ◌+◌, ℕ, List, None, length, IfOk, IsTrue, IsFalse, OnOk, option_copied};
ghost use Rattle.std.specs.BTreeMap.{get_by_text};
ghost use Rattle.query_tokens.specs.declared.piece.TheConstants.{LONGEST_QUERY};
ghost use Rattle.group_faults.specs.Faults.{label_text, block_after, with_label, shared_from};
ghost use Rattle.group_faults.specs.Walks.{Takes, IsShared, Passes};

use crate::sign::{is_other, sign_of};
use query_words::word::{Value, Word};
use std::alloc::Global;
use std::collections::BTreeMap;
use text_base::OutOfMemory;

/// A walk over tokens: the number of the block in which it stands, and of each label the number of the
/// block in which it stood first.
#[derive(Drop)]
struct Walk {
    block: usize,
    first: BTreeMap<String, usize>,
}

fn block_after(block: usize, value: &Value) -> usize
    requires { block < LONGEST_QUERY }
    ensures value { result ≡ block_after block value.now }
    ensures within { result ≤ block + 1 }
{
    if is_other(sign_of(value)) {
        block
    } else {
        block + 1
    }
}

/// The label of a blank node.
fn label_text(value: &Value) -> Option<&str>
    ensures { option_copied result ≡ label_text value.now }
{
    match value {
        Value::Label(text) => Some(text.as_str()),
        _ => None,
    }
}

/// A label of the block with this number.
fn add(
    alloc: Global,
    first: &mut BTreeMap<String, usize>,
    label: &str,
    block: usize,
) -> Result<(), OutOfMemory>
    ensures { OnOk result ((q : List ℕ) →
        get_by_text first.new q ≡ with_label (λ t. get_by_text first.old t) label.now block q) }
{
    let _ = first.insert(String::from_str(alloc, label)?, block)?;
    Ok(())
}

impl Walk {
    /// The number of the block in which a label stood first.
    fn first_of(&self, label: &str) -> Option<usize>
        ensures { result ≡ get_by_text self.now.first label.now }
    {
        self.first.get(label).copied()
    }

    /// Takes a label, and says whether it stands in another block before.
    fn take_label(&mut self, alloc: Global, label: &str) -> Result<bool, OutOfMemory>
        ensures takes { IfOk result (λ b.
            Takes (λ q. get_by_text self.old.first q) self.old.block label.now b (λ q. get_by_text self.new.first q)) }
        ensures block { self.new.block ≡ self.old.block }
    {
        match self.first_of(label) {
            Some(block) => Ok(block != self.block),
            None => {
                add(alloc, &mut self.first, label, self.block)?;
                Ok(false)
            }
        }
    }

    /// Takes a token, and says whether it is a label that stands in another block before.
    fn take(&mut self, alloc: Global, word: &Word) -> Result<bool, OutOfMemory>
        requires { self.old.block < LONGEST_QUERY }
        ensures shared { IfOk result (λ b. IsTrue b →
            IsShared (λ q. get_by_text self.old.first q) self.old.block word.now) }
        ensures other { IfOk result (λ b. IsFalse b → Passes (λ q. get_by_text self.old.first q) self.old.block word.now
            (λ q. get_by_text self.new.first q) self.new.block) }
        ensures within { OnOk result (self.new.block ≤ self.old.block + 1) }
    {
        match label_text(&word.value) {
            Some(label) => self.take_label(alloc, label),
            None => {
                self.block = block_after(self.block, &word.value);
                Ok(false)
            }
        }
    }
}

/// The first place of a label of a blank node that stands in an earlier block.
pub fn first_shared(alloc: Global, words: &[Word]) -> Result<Option<usize>, OutOfMemory>
    requires { length words.now ≤ LONGEST_QUERY }
    ensures { IfOk result (λ o. o ≡ shared_from (λ _. None) 0 words.now) }
{
    let mut walk = Walk {
        block: 0,
        first: BTreeMap::new(alloc),
    };
    for word in words {
        if walk.take(alloc, word)? {
            return Ok(Some(word.at));
        }
    }
    Ok(None)
}
