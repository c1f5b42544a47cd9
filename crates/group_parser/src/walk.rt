// The steps of a group from its tokens: one walk, which hands each run of tokens between braces, OPTIONAL
// and UNION to the reader of blocks.
//
// The steps of the empty group are written last: a Join with it is its other side. So the walk knows of each
// group that is open whether it is empty so far, and writes `Empty` where UNION or OPTIONAL needs it.
ghost use Rattle.std.specs.Prelude.{◌≡◌, ◌<◌, ◌≤◌, ◌+◌, ◌-◌, ◌^◌, length, IfOk, OnOk};
ghost use Rattle.pattern_parser.specs.Prefixes.{iris};
ghost use Rattle.pattern_parser.specs.Numbers.{AreNumbered};
ghost use Rattle.pattern_parser.specs.Items.{names_after};
ghost use Rattle.group_parser.specs.Walks.{begun, with_empty, joined, is_pending_empty, pending_by, settled, ready, entered, opened, with_last, left, closed, with_sign, with_block, with_patterns, with_run, finished, walked_from, names_read, steps_read};

use bgp_core::Pattern;
use group_faults::{Sign, is_other, sign_of};
use group_query::{Patterns, Step};
use pattern_parser::{Names, Prefixes, block_patterns};
use query_words::word::Word;
use std::alloc::Global;
use std::marker::Model;
use text_base::OutOfMemory;

/// What a brace opens: a part of its own, or the group of OPTIONAL or UNION.
#[derive(Clone, Copy, PartialEq, Eq)]
pub enum Opener {
    Part,
    Optional,
    Union,
}

/// The groups of a part, to which UNION may add one: none; one that is empty, of which no step is written
/// yet; or groups whose steps are written.
#[derive(Clone, Copy)]
pub enum Pending {
    Nothing,
    Empty,
    Written,
}

fn is_pending_empty(pending: Pending) -> bool
    ensures { result ≡ is_pending_empty pending }
{
    matches!(pending, Pending::Empty)
}

/// The groups of a part that is one group.
fn pending_by(is_empty: bool) -> Pending
    ensures { result ≡ pending_by is_empty }
{
    if is_empty {
        Pending::Empty
    } else {
        Pending::Written
    }
}

/// A group that is open around another: whether nothing stood in it before, and what the brace behind that
/// opened.
#[derive(Clone, Copy)]
pub struct Frame {
    pub is_empty: bool,
    pub opener: Opener,
}

/// Where the walk stands: the steps so far, whether the innermost group is empty so far, the groups of its
/// last part, what the next brace opens, and the groups around it, the innermost last.
#[derive(Drop)]
struct Walk {
    steps: Vec<Step>,
    is_empty: bool,
    pending: Pending,
    next: Opener,
    around: Vec<Frame>,
}

impl Model for Walk {
    ghost use Rattle.std.specs.Prelude.{reverse};
    ghost use Rattle.group_parser.specs.Walks.{Walking};

    ghost Value = { Walking };

    ghost view = { λ w. record { steps = w.steps.items; is_empty = w.is_empty; pending = w.pending; next = w.next; around = reverse w.around.items } };
}

impl Walk {
    fn new(alloc: Global) -> Walk
        ensures { result ≡ begun }
    {
        Walk {
            steps: Vec::new(alloc),
            is_empty: true,
            pending: Pending::Nothing,
            next: Opener::Part,
            around: Vec::new(alloc),
        }
    }

    /// Writes the empty group, where no step of a group is written.
    fn write_empty(&mut self, is_empty: bool) -> Result<(), OutOfMemory>
        ensures { OnOk result (self.new ≡ with_empty is_empty self.old) }
    {
        if is_empty {
            self.steps.push(Step::Empty)?;
        }
        Ok(())
    }

    /// Joins written steps to the group.
    fn join(&mut self) -> Result<(), OutOfMemory>
        ensures { OnOk result (self.new ≡ joined self.old) }
    {
        if !self.is_empty {
            self.steps.push(Step::Join)?;
        }
        self.is_empty = false;
        Ok(())
    }

    /// Joins the last part to the group.
    fn settle(&mut self) -> Result<(), OutOfMemory>
        ensures { OnOk result (self.new ≡ settled self.old) }
    {
        let pending = self.pending;
        self.pending = Pending::Nothing;
        match pending {
            Pending::Written => self.join(),
            Pending::Nothing => Ok(()),
            Pending::Empty => Ok(()),
        }
    }

    /// Writes what has to stand before a group, by what its brace opens.
    fn get_ready(&mut self) -> Result<(), OutOfMemory>
        ensures { OnOk result (self.new ≡ ready self.old) }
    {
        match self.next {
            Opener::Part => self.settle(),
            Opener::Optional => {
                let is_empty = self.is_empty;
                self.write_empty(is_empty)
            }
            Opener::Union => {
                let is_empty = is_pending_empty(self.pending);
                self.write_empty(is_empty)
            }
        }
    }

    /// Goes into a group.
    fn enter(&mut self) -> Result<(), OutOfMemory>
        ensures { OnOk result (self.new ≡ entered self.old) }
    {
        self.around.push(Frame {
            is_empty: self.is_empty,
            opener: self.next,
        })?;
        self.is_empty = true;
        self.pending = Pending::Nothing;
        self.next = Opener::Part;
        Ok(())
    }

    fn open(&mut self) -> Result<(), OutOfMemory>
        ensures { OnOk result (self.new ≡ opened self.old) }
    {
        self.get_ready()?;
        self.enter()
    }

    /// Writes the last step of the group of OPTIONAL or UNION.
    fn write_last(&mut self, step: Step) -> Result<(), OutOfMemory>
        ensures { OnOk result (self.new ≡ with_last step self.old) }
    {
        let is_empty = self.is_empty;
        self.write_empty(is_empty)?;
        self.steps.push(step)?;
        Ok(())
    }

    /// Goes back to a group around.
    fn leave(&mut self, frame: Frame) -> Result<(), OutOfMemory>
        ensures { OnOk result (self.new ≡ left frame self.old) }
    {
        match frame.opener {
            Opener::Part => {
                self.pending = pending_by(self.is_empty);
                self.is_empty = frame.is_empty;
                Ok(())
            }
            Opener::Optional => {
                self.write_last(Step::Optional)?;
                self.is_empty = false;
                Ok(())
            }
            Opener::Union => {
                self.write_last(Step::Union)?;
                self.is_empty = frame.is_empty;
                self.pending = Pending::Written;
                Ok(())
            }
        }
    }

    fn close(&mut self) -> Result<(), OutOfMemory>
        ensures { OnOk result (self.new ≡ closed self.old) }
    {
        self.settle()?;
        match self.around.pop() {
            Some(frame) => self.leave(frame),
            None => Ok(()),
        }
    }

    fn take_sign(&mut self, sign: Sign) -> Result<(), OutOfMemory>
        ensures { OnOk result (self.new ≡ with_sign sign self.old) }
    {
        match sign {
            Sign::Open => self.open(),
            Sign::Close => self.close(),
            Sign::Optional => {
                self.settle()?;
                self.next = Opener::Optional;
                Ok(())
            }
            Sign::Union => {
                self.next = Opener::Union;
                Ok(())
            }
            Sign::Other => Ok(()),
        }
    }

    /// Takes a block.
    fn take_block(&mut self, patterns: Patterns) -> Result<(), OutOfMemory>
        ensures { OnOk result (self.new ≡ with_block patterns self.old) }
    {
        self.settle()?;
        self.steps.push(Step::Block(patterns))?;
        self.join()
    }

    /// Takes a run of tokens between signs: a block, or nothing but a `.` behind a part.
    fn take_run(
        &mut self,
        alloc: Global,
        prefixes: &Prefixes,
        names: &mut Names,
        run: &[Word],
    ) -> Result<(), OutOfMemory>
        requires numbered { AreNumbered names.old }
        requires few { length names.old.texts.items + length run.now < 2 ^ 32 - 1 }
        ensures walk { OnOk result (self.new ≡ with_run (iris prefixes.now) names.old.texts.items run.now self.old) }
        ensures names { OnOk result (names.new.texts.items ≡ names_after names.old.texts.items 0 run.now) }
        ensures numbered { OnOk result (AreNumbered names.new) }
        ensures few { OnOk result (length names.new.texts.items ≤ length names.old.texts.items + length run.now) }
    {
        let patterns = block_patterns(alloc, prefixes, names, run)?;
        self.take_patterns(patterns)
    }

    /// Takes the patterns of a run of tokens: a block, or nothing where there are none.
    fn take_patterns(&mut self, patterns: Vec<Pattern>) -> Result<(), OutOfMemory>
        ensures { OnOk result (self.new ≡ with_patterns patterns.items self.old) }
    {
        if patterns.is_empty() {
            return Ok(());
        }
        self.take_block(Patterns::new(patterns))
    }

    /// Takes a run of tokens and the sign behind it.
    fn take(
        &mut self,
        alloc: Global,
        prefixes: &Prefixes,
        names: &mut Names,
        run: &[Word],
        sign: Sign,
    ) -> Result<(), OutOfMemory>
        requires numbered { AreNumbered names.old }
        requires few { length names.old.texts.items + length run.now < 2 ^ 32 - 1 }
        ensures walk { OnOk result (self.new ≡
            with_sign sign (with_run (iris prefixes.now) names.old.texts.items run.now self.old)) }
        ensures names { OnOk result (names.new.texts.items ≡ names_after names.old.texts.items 0 run.now) }
        ensures numbered { OnOk result (AreNumbered names.new) }
        ensures few { OnOk result (length names.new.texts.items ≤ length names.old.texts.items + length run.now) }
    {
        self.take_run(alloc, prefixes, names, run)?;
        self.take_sign(sign)
    }

    /// The steps of the group behind its last token.
    fn finish(mut self) -> Result<Vec<Step>, OutOfMemory>
        ensures { IfOk result (λ v. v.items ≡ finished self) }
    {
        self.settle()?;
        let is_empty = self.is_empty;
        self.write_empty(is_empty)?;
        Ok(self.steps)
    }
}

/// Takes the token at `i`, where the run that is begun has the tokens from another on; says where the run
/// begins behind it.
fn take_token(
    alloc: Global,
    prefixes: &Prefixes,
    names: &mut Names,
    walk: &mut Walk,
    words: &[Word],
    from: usize,
    i: usize,
) -> Result<usize, OutOfMemory>
    requires begun { from ≤ i }
    requires within { i < length words.now }
    requires numbered { AreNumbered names.old }
    requires few { length names.old.texts.items + (i - from) < 2 ^ 32 - 1 }
    ensures walk { IfOk result (λ next.
        walked_from (iris prefixes.now) names.new.texts.items walk.new next (i + 1) words.now
        ≡ walked_from (iris prefixes.now) names.old.texts.items walk.old from i words.now) }
    ensures begun { IfOk result (λ next. (from ≤ next) × (next ≤ i + 1)) }
    ensures numbered { OnOk result (AreNumbered names.new) }
    ensures few { IfOk result (λ next. length names.new.texts.items + from ≤ length names.old.texts.items + next) }
{
    let sign = sign_of(&words[i].value);
    if is_other(sign) {
        return Ok(from);
    }
    walk.take(alloc, prefixes, names, &words[from..i], sign)?;
    Ok(i + 1)
}

/// The steps of the group that some tokens are, from its first brace to its last; its names join those
/// given.
pub fn steps_of(
    alloc: Global,
    prefixes: &Prefixes,
    names: &mut Names,
    words: &[Word],
) -> Result<Vec<Step>, OutOfMemory>
    requires numbered { AreNumbered names.old }
    requires few { length names.old.texts.items + length words.now < 2 ^ 32 - 1 }
    ensures steps { IfOk result (λ v. v.items ≡ steps_read (iris prefixes.now) names.old.texts.items words.now) }
    ensures names { OnOk result (names.new.texts.items ≡
        names_read (iris prefixes.now) names.old.texts.items words.now) }
    ensures few { OnOk result (length names.new.texts.items ≤ length names.old.texts.items + length words.now) }
{
    let mut walk = Walk::new(alloc);
    let mut from = 0;
    for i in 0..words.len() {
        from = take_token(alloc, prefixes, names, &mut walk, words, from, i)?;
    }
    walk.take_run(alloc, prefixes, names, &words[from..])?;
    walk.finish()
}
