//! Rules as they were read.
use crate::aggregate::Aggregate;
use pcp_base::{List, Text};

/// For which instances of a sample a condition has to hold; for all of them it holds only where there is one.
#[derive(Clone, Copy)]
pub enum Quantifier {
    Any,
    All,
}

/// How what is told of a window compares with a condition's number.
#[derive(Clone, Copy)]
pub enum Comparison {
    Below,
    AtMost,
    Above,
    AtLeast,
    Equal,
    Unequal,
}

/// How the conditions of a rule are joined; one alone is joined by `And`.
#[derive(Clone, Copy)]
pub enum Joint {
    And,
    Or,
}

/// A condition on the windows of a metric's instances, which have `size` values, 1 to 1,000 where it was read.
#[derive(Drop)]
pub struct Condition {
    pub quantifier: Quantifier,
    pub aggregate: Aggregate,
    pub name: Text,
    pub size: u32,
    pub comparison: Comparison,
    pub number: i128,
}

/// A rule: its label, and its conditions, which are one to eight where it was read.
#[derive(Drop)]
pub struct Rule {
    pub label: Text,
    pub joint: Joint,
    pub conditions: List<Condition>,
}
