//! PDUs, by which a client and pmcd speak (PCP's PDU headers): each is a length, a type, a word that isn't looked at, and a
//! body. They are written in one spelling and read exactly; what is no PDU is refused by the first byte that fits none.
#![tactic(auto)]

mod fault;
mod fields;
mod laws;
mod lists;
mod misfit;
mod parts;
mod pdu;
mod reading;
mod replies;
mod requests;
mod sizes;
mod spelling;
mod types;

pub use fault::PduFault;
pub use laws::{
    faults_come_once, no_pdu_begins_another, no_result_goes_on, some_result_goes_so_far,
    written_is_read,
};
pub use pdu::Pdu;
pub use reading::decode;
pub use sizes::pdu_length;
pub use spelling::{encode, fits};
