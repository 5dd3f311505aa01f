//! How a session stands.
use crate::contexts::Contexts;

/// How a session stands: whether the client said that it speaks this protocol, its contexts, and who reads the regions.
#[derive(Drop)]
pub struct Standing<A> {
    pub is_met: bool,
    pub contexts: Contexts,
    pub agent: A,
}
