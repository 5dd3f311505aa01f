//! Rules over the last values of metrics, after pmie(1): a text of rules is read exactly, and a watch answers for each
//! sample which rules hold. It keeps of each stream the last values alone, with running sums and queues of least values,
//! and answers what all samples so far say.
#![tactic(auto)]

mod aggregate;
mod fault;
mod groups;
mod laws;
mod line;
mod queue;
mod reading;
mod rule;
mod running;
mod streams;
mod watch;
mod watched;
mod window;

pub use aggregate::Aggregate;
pub use fault::{ReadRulesError, RuleFault, RuleLineFault};
pub use laws::{only_rules_are_read, pushes_tell, rows_may_lack_others, rules_are_read};
pub use reading::Rules;
pub use rule::{Comparison, Condition, Joint, Quantifier, Rule};
pub use watch::Watch;
