//! SCRAM-SHA-1 as a GSS-API mechanism for C, behind handles (RFC 5802, RFC 4121 section 4.2).
#![tactic(auto)]

mod exchange;
mod listing;
mod messages;
mod opening;
mod scram_handle;
mod status;
mod telling;
mod verifiers_handle;
