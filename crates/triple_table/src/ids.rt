// Triples and patterns of numbers, the orders of rows, and ranges of them.
ghost use Rattle.std.specs.Prelude.{◌≡◌};
ghost use Rattle.triple_table.specs.Rows.{row_of, id_triple_of, order_for, bound_of};

use std::cmp::Ordering;

/// A triple by the ids of its terms, which are their places, from 0, in the sorted term dictionary; so it
/// is ordered as its triple is.
#[derive(Clone, Copy, PartialEq, Eq)]
pub struct IdTriple {
    pub subject: u32,
    pub predicate: u32,
    pub object: u32,
}

/// A pattern by the ids of its fixed terms, as `Table::id` gives them; a place without an id matches
/// every term. The ids are those of one table, and mean nothing at another.
#[derive(Clone, Copy, PartialEq, Eq)]
pub struct IdPattern {
    pub subject: Option<u32>,
    pub predicate: Option<u32>,
    pub object: Option<u32>,
}

/// The place by which rows are ordered first, then second, then third.
#[derive(Clone, Copy, PartialEq, Eq)]
pub enum Order {
    /// Subject, predicate, object.
    Spo,
    /// Predicate, object, subject.
    Pos,
    /// Object, subject, predicate.
    Osp,
}

/// The rows of an order from a place up to, and without, another: the triples that match a pattern,
/// as `Table::range` gives them. Places count from 0, over all triples of that table in this order;
/// the range is empty where `from` and `to` are the same.
#[derive(Clone, Copy)]
pub struct Range {
    pub order: Order,
    pub from: usize,
    pub to: usize,
}

/// A triple of ids in the order in which they are compared.
#[derive(Clone, Copy, PartialEq, Eq, PartialOrd, Ord)]
pub struct Row {
    pub first: u32,
    pub second: u32,
    pub third: u32,
}

impl Order {
    /// The row of a triple in this order.
    pub(crate) fn row(self, triple: IdTriple) -> Row
        ensures { result ≡ row_of self triple }
    {
        let IdTriple {
            subject,
            predicate,
            object,
        } = triple;
        match self {
            Order::Spo => Row {
                first: subject,
                second: predicate,
                third: object,
            },
            Order::Pos => Row {
                first: predicate,
                second: object,
                third: subject,
            },
            Order::Osp => Row {
                first: object,
                second: subject,
                third: predicate,
            },
        }
    }

    /// The triple of a row of this order.
    pub(crate) fn triple(self, row: Row) -> IdTriple
        ensures { result ≡ id_triple_of self row }
    {
        let Row {
            first,
            second,
            third,
        } = row;
        match self {
            Order::Spo => IdTriple {
                subject: first,
                predicate: second,
                object: third,
            },
            Order::Pos => IdTriple {
                predicate: first,
                object: second,
                subject: third,
            },
            Order::Osp => IdTriple {
                object: first,
                subject: second,
                predicate: third,
            },
        }
    }
}

impl IdPattern {
    /// The order in which the rows that match stand side by side: Spo where nothing, the subject, the
    /// subject and the predicate, or all is fixed, Pos where the predicate or it and the object are, Osp
    /// where the object or it and the subject are.
    pub fn order(&self) -> Order
        ensures { result ≡ order_for self.now }
    {
        match (
            self.subject.is_some(),
            self.predicate.is_some(),
            self.object.is_some(),
        ) {
            (false, true, _) => Order::Pos,
            (_, false, true) => Order::Osp,
            _ => Order::Spo,
        }
    }

    /// The row of this pattern in its order, a place without an id taking this one.
    pub(crate) fn bound(&self, fill: u32) -> Row
        ensures { result ≡ bound_of self.now fill }
    {
        self.order().row(IdTriple {
            subject: self.subject.unwrap_or(fill),
            predicate: self.predicate.unwrap_or(fill),
            object: self.object.unwrap_or(fill),
        })
    }
}
