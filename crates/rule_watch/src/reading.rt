//! A whole text of rules, line by line.
ghost use Rattle.std.specs.Prelude.{◌≡◌, OnOk, IfOk};
ghost use Rattle.rule_watch.specs.Lines.{rule_of};
ghost use Rattle.rule_watch.specs.Reading.{Answers, Goes, rules_of, with_rule};
ghost use Rattle.rule_watch.specs.Rules.{AreRules, has_label};

use crate::fault::{LineStop, ReadRulesError, RuleLineFault};
use crate::line::rule_of;
use crate::rule::Rule;
use pcp_base::{List, Text};
use std::alloc::Global;
use std::marker::Model;
use text_lines::split_line;

/// The rules of a text, at most 64, with labels that differ. Contracts see the list of them.
#[derive(Drop)]
pub struct Rules {
    rules: List<Rule>,
}

impl Model for Rules {
    ghost use Rattle.std.specs.Prelude.{List as Sequence};
    ghost use Rattle.rule_watch.specs.declared.rule.Rule.{Rule as Written};
    ghost use Rattle.rule_watch.specs.Rules.{AreRules};

    ghost Value = { Sequence Written };

    ghost view = { λ a. a.rules };

    ghost invariant = { λ a. AreRules a.rules };
}

fn has_label(rules: &[Rule], label: &Text) -> bool
    ensures { result ≡ has_label rules.now label.now }
{
    rules
        .iter()
        .any(|rule| rule.label.as_slice() == label.as_slice())
}

// One more line, which is without its line feed.
fn take_line(alloc: Global, rules: &mut List<Rule>, line: &[u8]) -> Result<(), LineStop>
    requires { AreRules rules.old }
    ensures step { Goes (with_rule rules.old (rule_of line.now)) rules.new result }
    ensures rules { OnOk result (AreRules rules.new) }
{
    let rule = rule_of(alloc, line)?;
    if has_label(rules.as_slice(), &rule.label) {
        return Err(LineStop::Fault(RuleLineFault::Condition));
    }
    if rules.len() >= 64 {
        return Err(LineStop::Fault(RuleLineFault::Many));
    }
    rules.push(rule)?;
    Ok(())
}

// The rules of all lines.
fn take_lines(alloc: Global, text: &[u8]) -> Result<List<Rule>, ReadRulesError>
    ensures read { Answers (rules_of text.now) result }
    ensures rules { IfOk result AreRules }
{
    let mut rules = List::empty(alloc);
    let mut rest = text;
    while !rest.is_empty() {
        let number = rules.len() as u64 + 1;
        let Some((line, behind)) = split_line(rest) else {
            return Err(LineStop::Fault(RuleLineFault::Grammar).on(number));
        };
        match take_line(alloc, &mut rules, line) {
            Ok(()) => rest = behind,
            Err(stop) => return Err(stop.on(number)),
        }
    }
    Ok(rules)
}

impl Rules {
    /// Reads a text of rules, or tells the first fault in the order of the lines: `Grammar` where a line isn't a rule or
    /// is without its line feed, `Condition` where its label stands before, `Many` where 64 rules do. A line that has
    /// several is told by the first of these. An empty text is no rules.
    pub fn read(alloc: Global, text: &[u8]) -> Result<Rules, ReadRulesError>
        ensures { Answers (rules_of text.now) result }
    {
        let rules = take_lines(alloc, text)?;
        Ok(Rules { rules })
    }

    /// The rules, in the order of their lines.
    pub fn into_list(self) -> List<Rule>
        ensures rules { result ≡ self }
        ensures range { AreRules result }
    {
        self.rules
    }
}
