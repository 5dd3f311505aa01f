//! What the logger of a run keeps between its samples.
use crate::plans::Plans;
use logging_session::Session;

/// The session of its archive, and the groups once they have started.
#[derive(Drop)]
pub struct Sampler<'a> {
    pub session: Session,
    pub plans: Option<Plans<'a>>,
}
