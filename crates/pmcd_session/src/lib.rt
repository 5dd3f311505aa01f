//! A session: what pmcd replies to the PDUs of one client, in whatever pieces they come (pmcd(1), and PCP's PDU headers; the
//! dialogue is this program's own). The client says first that it speaks the protocol. Then it sets the profiles of its
//! contexts, and asks for values, descriptions, instances and names, which an agent reads from the regions.
#![tactic(auto)]

mod agent;
mod answering;
mod contexts;
mod conversing;
mod halt;
mod replies;
mod requests;
mod seat;
mod seated;
mod sending;
mod serving;
mod standing;
mod telling;

pub use agent::Agent;
pub use pcp_outside::SessionEnd;
pub use seat::{SessionSeat, session};
