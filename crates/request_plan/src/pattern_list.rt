// Lists of patterns, shared.
ghost use Rattle.std.specs.Prelude.{◌≡◌, ◌<◌, ◌++◌, ◌∷◌, [], length, map, IfOk, OnOk, slice_index_or};
ghost use Rattle.std.specs.List.{remove};
ghost use Rattle.bgp_core.specs.declared.pattern.Pattern.{Pattern};
ghost use Rattle.std.specs.Rc.{rc_value};

use bgp_core::Pattern;
use std::alloc::Global;
use std::marker::Model;
use std::rc::Rc;
use tpf_base::OutOfMemory;

/// Patterns of a query, each shared by all lists that hold it. Contracts see them as their list.
pub struct PatternList {
    patterns: Vec<Rc<Pattern>>,
}

// Written out, so that who drops one calls this, and does not take it apart at each exit.
impl Drop for PatternList {
    fn drop(self) {
        let PatternList {
            patterns: _patterns,
        } = self;
    }
}

impl Model for PatternList {
    ghost use Rattle.std.specs.Prelude.{List, map};
    ghost use Rattle.bgp_core.specs.declared.pattern.Pattern.{Pattern};
    ghost use Rattle.std.specs.Rc.{rc_value};

    ghost Value = { List Pattern };

    ghost view = { λ l. map rc_value l.patterns.items };
}

/// Adds a pattern, which both lists share then.
fn share(list: &mut Vec<Rc<Pattern>>, pattern: &Rc<Pattern>) -> Result<(), OutOfMemory>
    ensures { OnOk result (map rc_value list.new.items ≡
        map rc_value list.old.items ++ pattern.now.value ∷ []) }
{
    list.push(pattern.clone()?)?;
    Ok(())
}

/// A copy of a pattern, for lists to share.
fn shared_copy(alloc: Global, pattern: &Pattern) -> Result<Rc<Pattern>, OutOfMemory>
    ensures { IfOk result (λ p. p.value ≡ pattern.now) }
{
    let copy = pattern.copy(alloc)?;
    Ok(Rc::new(alloc, copy)?)
}

fn share_all(alloc: Global, patterns: &[Rc<Pattern>]) -> Result<Vec<Rc<Pattern>>, OutOfMemory>
    ensures patterns { IfOk result (λ v. map rc_value v.items ≡ map rc_value patterns.now) }
    ensures count { IfOk result (λ v. length v.items ≡ length patterns.now) }
{
    let mut copy = Vec::with_capacity(alloc, patterns.len())?;
    for pattern in patterns {
        share(&mut copy, pattern)?;
    }
    Ok(copy)
}

impl PatternList {
    /// The same patterns, which are copied here once. The only error is out of memory.
    pub fn from_slice(alloc: Global, patterns: &[Pattern]) -> Result<PatternList, OutOfMemory>
        ensures { IfOk result (λ l. l ≡ patterns.now) }
    {
        let mut list = Vec::with_capacity(alloc, patterns.len())?;
        for pattern in patterns {
            list.push(shared_copy(alloc, pattern)?)?;
        }
        Ok(PatternList { patterns: list })
    }

    /// How many patterns there are. It takes no memory.
    pub fn len(&self) -> usize
        ensures { result ≡ length self.now }
    {
        self.patterns.len()
    }

    /// The pattern at a place. Condition: there is one. It takes no memory.
    pub fn at(&self, index: usize) -> &Rc<Pattern>
        requires { index < length self.now }
        ensures { (p : Pattern) → p ≡ slice_index_or self.now index p → result.now.value ≡ p }
    {
        &self.patterns[index]
    }

    /// All patterns but the one at a place; no pattern is copied. Condition: there is one at the
    /// place. The only error is out of memory.
    pub fn without(&self, alloc: Global, index: usize) -> Result<PatternList, OutOfMemory>
        requires { index < length self.now }
        ensures { IfOk result (λ l. l ≡ remove self.now index) }
    {
        let mut patterns = share_all(alloc, self.patterns.as_slice())?;
        patterns.remove(index);
        Ok(PatternList { patterns })
    }
}
