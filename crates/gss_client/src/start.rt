//! What a session is begun with.

use crate::terms::Terms;
use init_ends::InitSetup;

/// What a session is begun with.
#[derive(Drop)]
pub struct Start {
    pub setup: InitSetup,
    /// What is called, and how the session's calls are protected.
    pub terms: Terms,
    /// The number of the first call, from 1 to 0x7fffffff.
    pub first: u32,
}
