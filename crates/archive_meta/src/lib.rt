//! The records of an archive's Meta file (LOGARCHIVE(5)): the descriptions of metrics, each with its names, and the
//! instances of a domain, each list from a moment on. A payload is read exactly where it is such a record, and written in one
//! spelling. All records are read whole or not at all, and looked up by metric and by domain. A result's facts are compared
//! with what is kept, and the records that it still needs are framed.
#![tactic(auto)]

mod adding;
mod counting;
mod descriptions;
mod facts;
mod fault;
mod fitting;
mod framed;
mod front;
mod hashing;
mod keeping;
mod laws;
mod missing;
mod moments;
mod named;
mod needed;
mod record;
mod record_domain;
mod record_names;
mod record_texts;
mod record_writing;
mod state;
mod taking;

pub use facts::{Changed, Facts, RecordsFault};
pub use fault::MetaFault;
pub use fitting::has_values;
pub use laws::{missing_records_describe, records_go_on};
pub use record::domain_stamp;
pub use record_writing::{put_description, put_domain};
pub use state::MetaState;
