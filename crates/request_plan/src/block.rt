// Blocks of rows: what they ask for, and how rows are cut into them.
ghost use Rattle.std.specs.Prelude.{ℕ, ◌≡◌, ◌<◌, ◌≤◌, ◌+◌, ◌-◌, ◌^◌, ◌++◌, ◌∷◌, List, [], length, map, min, take, drop, IfOk, OnOk, MatchOption, true};
ghost use Rattle.std.specs.List.{All, AllByRecursion};
ghost use Rattle.rdf_terms.specs.Askable.{askable};
ghost use Rattle.rdf_terms.specs.declared.limits.TheConstants.{MOST_ROWS};
ghost use Rattle.template_fill.specs.declared.form.Form.{Form};
ghost use Rattle.template_fill.specs.Forms.{HasNoBlank};
ghost use Rattle.bgp_core.specs.Solutions.{Places};
ghost use Rattle.bgp_core.specs.Instances.{instance, bound_places};
ghost use Rattle.request_plan.specs.Blocks.{block_length, blocks, cut_by, distinct_slots, form_cut, longest_front, selection_for};
ghost use Rattle.request_plan.specs.Plans.{all_askable};
ghost use Rattle.request_plan.specs.Targets.{HasAddress, IsTarget, block_lengths, rows_length, with_distinct};

use crate::FormList;
use crate::pattern_list::PatternList;
use bgp_core::{Pattern, Row, bound_places, instance};
use rdf_terms::{MOST_ROWS, Slots};
use std::alloc::Global;
use std::collections::VecDeque;
use std::marker::Model;
use template_fill::{Form, row_length};
use tpf_base::OutOfMemory;

/// The most bytes of the target of a request for a block of several rows.
pub const LONGEST_TARGET: usize = 65536;

/// The most rows for which one request asks: from 1, which is row by row, to `MOST_ROWS` (64).
/// Contracts see it as that number.
#[derive(Clone, Copy)]
pub struct BlockSize {
    rows: usize,
}

impl Model for BlockSize {
    ghost use Rattle.std.specs.Prelude.{ℕ, ◌≤◌};
    ghost use Rattle.rdf_terms.specs.declared.limits.TheConstants.{MOST_ROWS};

    ghost Value = { ℕ };

    ghost view = { λ b. b.rows };

    ghost invariant = { λ b. (1 ≤ b.rows) × (b.rows ≤ MOST_ROWS) };

    ghost inverse = { λ n. record { rows = n } };
}

impl BlockSize {
    /// Row by row. It takes no memory.
    pub fn one() -> BlockSize
        ensures { result ≡ 1 }
    {
        BlockSize { rows: 1 }
    }

    /// At most so many rows; `None` exactly where that is no number from 1 to `MOST_ROWS` (64). It
    /// takes no memory.
    pub fn new(rows: u32) -> Option<BlockSize>
        ensures { MatchOption result ((1 ≤ rows) × (rows ≤ MOST_ROWS) → ⊥) (λ size. size ≡ rows) }
    {
        let rows = rows as usize;
        if rows < 1 || rows > MOST_ROWS {
            return None;
        }
        Some(BlockSize { rows })
    }

    /// The number, from 1 to `MOST_ROWS` (64). It takes no memory.
    pub fn get(self) -> usize
        ensures value { result ≡ self }
        ensures low { 1 ≤ result }
        ensures high { result ≤ MOST_ROWS }
    {
        self.rows
    }
}

/// Rows that are asked for together, one or more. Contracts see them as their list.
pub struct RowBlock {
    first: Row,
    others: Vec<Row>,
}

// Written out, so that who drops one calls this, and does not take it apart at each exit.
impl Drop for RowBlock {
    fn drop(self) {
        let RowBlock {
            first: _first,
            others: _others,
        } = self;
    }
}

impl Model for RowBlock {
    ghost use Rattle.std.specs.Prelude.{List, ◌∷◌};
    ghost use Rattle.bgp_core.specs.Solutions.{Places};

    ghost Value = { List Places };

    ghost view = { λ b. b.first ∷ b.others.items };
}

/// The same rows; their terms are shared.
fn copy_rows(alloc: Global, rows: &[Row]) -> Result<Vec<Row>, OutOfMemory>
    ensures { IfOk result (λ v. v.items ≡ rows.now) }
{
    let mut copy = Vec::with_capacity(alloc, rows.len())?;
    for row in rows {
        copy.push(row.copy(alloc)?)?;
    }
    Ok(copy)
}

impl RowBlock {
    /// One row alone. It takes no memory.
    pub(crate) fn one(alloc: Global, row: Row) -> RowBlock
        ensures { result ≡ row ∷ [] }
    {
        RowBlock {
            first: row,
            others: Vec::new(alloc),
        }
    }

    /// Adds a row at the end.
    pub(crate) fn push(&mut self, row: Row) -> Result<(), OutOfMemory>
        ensures { OnOk result (self.new ≡ self.old ++ row ∷ []) }
    {
        self.others.push(row)?;
        Ok(())
    }

    /// The first row.
    pub(crate) fn first(&self) -> &Row
        ensures { self.now ≡ result.now ∷ drop 1 self.now }
    {
        &self.first
    }

    /// The rows after the first.
    pub(crate) fn others(&self) -> &[Row]
        ensures { result.now ≡ drop 1 self.now }
    {
        self.others.as_slice()
    }

    /// The same rows; their terms are shared. The only error is out of memory.
    pub fn copy(&self, alloc: Global) -> Result<RowBlock, OutOfMemory>
        ensures { IfOk result (λ b. b ≡ self.now) }
    {
        let first = self.first.copy(alloc)?;
        let others = copy_rows(alloc, self.others.as_slice())?;
        Ok(RowBlock { first, others })
    }
}

/// How rows are cut into blocks: at most so many rows, by the targets under the first of some
/// forms.
#[derive(Drop)]
pub struct Cut {
    pub forms: FormList,
    pub block: BlockSize,
}

// ---- what a block asks a pattern for

/// Adds what a row binds in a pattern, unless it is there.
fn add_places(
    alloc: Global,
    pattern: &Pattern,
    row: &Row,
    distinct: &mut Vec<Slots>,
) -> Result<(), OutOfMemory>
    ensures { OnOk result (distinct.new.items ≡
        with_distinct distinct.old.items (bound_places pattern.now row.now)) }
{
    let places = bound_places(alloc, pattern, row)?;
    if !distinct.contains(&places) {
        distinct.push(places)?;
    } else {
        drop(places);
    }
    Ok(())
}

/// What rows bind in a pattern, each once, in their order.
fn distinct_places(
    alloc: Global,
    pattern: &Pattern,
    block: &RowBlock,
) -> Result<Vec<Slots>, OutOfMemory>
    ensures { IfOk result (λ v.
        v.items ≡ distinct_slots (map (bound_places pattern.now) block.now)) }
{
    let mut distinct = Vec::new(alloc);
    add_places(alloc, pattern, &block.first, &mut distinct)?;
    for row in &block.others {
        add_places(alloc, pattern, row, &mut distinct)?;
    }
    Ok(distinct)
}

/// The pattern where no name is bound.
fn free_instance(alloc: Global, pattern: &Pattern) -> Result<Slots, OutOfMemory>
    ensures { IfOk result (λ s. s ≡ instance pattern.now []) }
{
    instance(alloc, pattern, &Row::empty(alloc, 0))
}

/// What a block asks a pattern for, the slots and the rows that restrict them: under one row the
/// instance of the pattern; under several the pattern alone, restricted by what each of the rows
/// binds in it.
pub(crate) fn selection_of(
    alloc: Global,
    pattern: &Pattern,
    block: &RowBlock,
) -> Result<(Slots, Vec<Slots>), OutOfMemory>
    ensures { IfOk result (λ p.
        record { slots = p.0; rows = p.1.items } ≡ selection_for pattern.now block.now) }
{
    if block.others.is_empty() {
        return Ok((instance(alloc, pattern, &block.first)?, Vec::new(alloc)));
    }
    let rows = distinct_places(alloc, pattern, block)?;
    Ok((free_instance(alloc, pattern)?, rows))
}

// ---- how long a block may be

/// What a block that grows asks of one pattern: what its rows bind there, each once, and how long
/// the target of the first page is. The length stands still at 2^64 - 1.
#[derive(Drop)]
struct Target {
    places: Vec<Slots>,
    length: usize,
}

impl Target {
    /// The target of a pattern's block without a row.
    fn new(alloc: Global, form: &Form, pattern: &Pattern) -> Result<Target, OutOfMemory>
        requires { askable (instance pattern.now []) ≡ true }
        ensures { IfOk result (λ t. IsTarget form.now pattern.now [] t) }
    {
        let slots = free_instance(alloc, pattern)?;
        let address = form.address(alloc, &slots);
        // Dropped here, so that no exit below has it.
        drop(slots);
        Ok(Target {
            places: Vec::new(alloc),
            length: address?.target().len(),
        })
    }

    /// Takes what a row binds that no row before it does.
    fn push(&mut self, alloc: Global, places: Slots) -> Result<(), OutOfMemory>
        requires { HasNoBlank places }
        ensures places { OnOk result
            (self.new.places.items ≡ self.old.places.items ++ places ∷ []) }
        ensures length { OnOk result
            (self.new.length ≡ min (self.old.length + rows_length (places ∷ [])) (2 ^ 64 - 1)) }
    {
        match row_length(alloc, &places) {
            Ok(more) => {
                self.places.push(places)?;
                self.length = self.length.saturating_add(more);
                Ok(())
            }
            Err(fault) => {
                drop(places);
                Err(fault)
            }
        }
    }

    /// Takes what one more row binds.
    fn add(&mut self, alloc: Global, pattern: &Pattern, row: &Row) -> Result<(), OutOfMemory>
        requires { askable (instance pattern.now row.now) ≡ true }
        ensures { (form : Form) (rows : List Places) → IsTarget form pattern.now rows self.old →
            OnOk result (IsTarget form pattern.now (rows ++ row.now ∷ []) self.new) }
    {
        let places = bound_places(alloc, pattern, row)?;
        if self.places.contains(&places) {
            drop(places);
            return Ok(());
        }
        self.push(alloc, places)?;
        Ok(())
    }
}

/// How many rows at the front ask this pattern for a short target, at most so many and at least
/// one. From the second row on a longer block has no shorter target, so they end before the first
/// row that does not fit.
fn fitting(
    alloc: Global,
    form: &Form,
    pattern: &Pattern,
    rows: &[Row],
    most: usize,
) -> Result<usize, OutOfMemory>
    requires some { 1 ≤ most }
    requires within { most ≤ length rows.now }
    requires askable { All (λ row. askable (instance pattern.now row) ≡ true) rows.now }
    ensures front { (n : ℕ) →
        IfOk result (λ k.
        k ≡ longest_front (form_cut form.now n) (pattern.now ∷ []) rows.now most) }
    ensures addressed { IfOk result (λ k. HasAddress form.now pattern.now) }
{
    let mut target = Target::new(alloc, form, pattern)?;
    target.add(alloc, pattern, &rows[0])?;
    for count in 1..most {
        target.add(alloc, pattern, &rows[count])?;
        if target.length > LONGEST_TARGET {
            return Ok(count);
        }
    }
    Ok(most)
}

/// How many rows at the front ask each of the patterns from a place on for a short target, at most
/// so many and at least one.
fn fitting_from(
    alloc: Global,
    form: &Form,
    patterns: &PatternList,
    index: usize,
    rows: &[Row],
    most: usize,
) -> Result<usize, OutOfMemory>
    requires some { 1 ≤ most }
    requires within { most ≤ length rows.now }
    requires askable { All (λ row. all_askable row patterns.now ≡ true) rows.now }
    ensures front { (n : ℕ) →
        IfOk result (λ k.
        k ≡ longest_front (form_cut form.now n) (drop index patterns.now) rows.now most) }
    ensures addressed { IfOk result (λ k.
        AllByRecursion (HasAddress form.now) (drop index patterns.now)) }
{
    if index >= patterns.len() {
        return Ok(most);
    }
    let fit = fitting_from(alloc, form, patterns, index + 1, rows, most)?;
    fitting(alloc, form, patterns.at(index), rows, fit)
}

/// How many rows the block at the front has, where it may have so many at most.
fn front_length(
    alloc: Global,
    form: &Form,
    most: usize,
    rest: &PatternList,
    rows: &[Row],
) -> Result<usize, OutOfMemory>
    requires most { 1 ≤ most }
    requires some { 0 < length rows.now }
    requires askable { All (λ row. all_askable row rest.now ≡ true) rows.now }
    ensures length { IfOk result (λ n.
        n ≡ block_length (form_cut form.now most) rest.now rows.now) }
    ensures some { IfOk result (λ n. 1 ≤ n) }
    ensures within { IfOk result (λ n. n ≤ length rows.now) }
{
    let most = most.min(rows.len());
    if most == 1 {
        return Ok(1);
    }
    fitting_from(alloc, form, rest, 0, rows, most)
}

// ---- blocks

/// Each row alone.
fn single_rows(alloc: Global, rows: Vec<Row>) -> Result<Vec<RowBlock>, OutOfMemory>
    ensures { IfOk result (λ v. v.items ≡ map (λ row. row ∷ []) rows.items) }
{
    let mut blocks = Vec::with_capacity(alloc, rows.len())?;
    for row in rows {
        blocks.push(RowBlock::one(alloc, row))?;
    }
    Ok(blocks)
}

/// The lengths of the blocks into which rows are cut.
fn lengths(
    alloc: Global,
    form: &Form,
    most: usize,
    rest: &PatternList,
    rows: &[Row],
) -> Result<Vec<usize>, OutOfMemory>
    requires most { 1 ≤ most }
    requires askable { All (λ row. all_askable row rest.now ≡ true) rows.now }
    ensures { IfOk result (λ v.
        v.items ≡ block_lengths (form_cut form.now most) rest.now rows.now) }
{
    let mut lengths = Vec::new(alloc);
    let mut left = rows;
    while !left.is_empty() {
        let length = front_length(alloc, form, most, rest, left)?;
        lengths.push(length)?;
        (_, left) = left.split_at(length);
    }
    Ok(lengths)
}

/// Moves rows from the front into a block.
fn take_block(
    alloc: Global,
    rows: &mut VecDeque<Row>,
    count: usize,
) -> Result<RowBlock, OutOfMemory>
    requires some { 1 ≤ count }
    requires within { count ≤ length rows.old.items }
    ensures block { IfOk result (λ b. b ≡ take count rows.old.items) }
    ensures left { OnOk result (rows.new.items ≡ drop count rows.old.items) }
{
    let Some(first) = rows.pop_front() else {
        unreachable!();
    };
    let mut block = RowBlock::one(alloc, first);
    for _ in 1..count {
        if let Some(row) = rows.pop_front() {
            block.push(row)?;
        }
    }
    Ok(block)
}

/// Moves rows from the front into a block, which is added.
fn push_block(
    alloc: Global,
    rows: &mut VecDeque<Row>,
    count: usize,
    into: &mut Vec<RowBlock>,
) -> Result<(), OutOfMemory>
    requires some { 1 ≤ count }
    requires within { count ≤ length rows.old.items }
    ensures block { OnOk result
        (into.new.items ≡ into.old.items ++ take count rows.old.items ∷ []) }
    ensures left { OnOk result (rows.new.items ≡ drop count rows.old.items) }
{
    into.push(take_block(alloc, rows, count)?)?;
    Ok(())
}

/// The blocks of the lengths that are measured.
fn measured_blocks(
    alloc: Global,
    cut: &Cut,
    rest: &PatternList,
    rows: Vec<Row>,
) -> Result<Vec<RowBlock>, OutOfMemory>
    requires { All (λ row. all_askable row rest.now ≡ true) rows.items }
    ensures { IfOk result (λ v. v.items ≡ blocks (cut_by cut.now) rest.now rows.items) }
{
    let most = cut.block.get();
    let lengths = lengths(alloc, cut.forms.first(), most, rest, rows.as_slice())?;
    let mut left = VecDeque::from(rows);
    let mut blocks = Vec::with_capacity(alloc, lengths.len())?;
    for length in &lengths {
        push_block(alloc, &mut left, *length, &mut blocks)?;
    }
    Ok(blocks)
}

/// Cuts rows from the front into blocks, each of which is the longest of at most so many rows whose
/// targets have at most `LONGEST_TARGET` bytes (65536), and has at least one row. Row by row nothing
/// is measured. Condition: each of the patterns can be asked for under each row. The only error is
/// out of memory.
pub fn cut_rows(
    alloc: Global,
    cut: &Cut,
    rest: &PatternList,
    rows: Vec<Row>,
) -> Result<Vec<RowBlock>, OutOfMemory>
    requires { All (λ row. all_askable row rest.now ≡ true) rows.items }
    ensures { IfOk result (λ v. v.items ≡ blocks (cut_by cut.now) rest.now rows.items) }
{
    let most = cut.block.get();
    if most == 1 {
        return single_rows(alloc, rows);
    }
    measured_blocks(alloc, cut, rest, rows)
}
