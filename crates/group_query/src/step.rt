// The steps of a group.
ghost use Rattle.std.specs.Prelude.{◌≡◌};

use bgp_core::Pattern;
use std::marker::Model;

/// The triple patterns of a block, a basic graph pattern, in their order.
#[derive(Drop)]
pub struct Patterns {
    list: Vec<Pattern>,
}

impl Model for Patterns {
    ghost use Rattle.std.specs.Prelude.{List};
    ghost use Rattle.bgp_core.specs.declared.pattern.Pattern.{Pattern};

    ghost Value = { List Pattern };

    ghost view = { λ p. p.list.items };
}

impl Patterns {
    /// The block of these patterns. It takes no memory.
    pub fn new(list: Vec<Pattern>) -> Patterns
        ensures { result ≡ list.items }
    {
        Patterns { list }
    }

    /// The patterns.
    pub fn as_slice(&self) -> &[Pattern]
        ensures { result.now ≡ self.now }
    {
        self.list.as_slice()
    }
}

/// A step of a group in postfix order (SPARQL 1.1, section 18.2.1): a block or the empty group, or what
/// joins the two groups of the steps before it, the left one standing first.
#[derive(Drop)]
pub enum Step {
    /// A basic graph pattern.
    Block(Patterns),
    /// The empty group, which has one solution without a name.
    Empty,
    /// Join of two groups.
    Join,
    /// LeftJoin: what stands before OPTIONAL, and the group behind it.
    Optional,
    /// Union of two groups.
    Union,
}
