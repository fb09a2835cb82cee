//! The end of a session as the tables say it.

use gss_client::{ClientRefusal, Denial, ReplyWhy};
use table_rows::Said;
use table_setting::saying;

/// Says why a session ended.
pub fn say_ended(said: &mut Said, refusal: ClientRefusal) {
    match refusal {
        ClientRefusal::Refused(denial) => {
            said.word("Refused");
            said.join(":");
            say_denied(said, denial);
        }
        ClientRefusal::Negotiation(why) => {
            said.word("Negotiation");
            said.join(":");
            saying::refusal(said, why);
        }
        ClientRefusal::BadReply(why) => {
            said.word("BadReply");
            said.join(":");
            say_bad(said, why);
        }
        refusal => said.form(&refusal),
    }
}

/// Says what is wrong with a reply.
fn say_bad(said: &mut Said, why: ReplyWhy) {
    match why {
        ReplyWhy::Form { at } => numbered(said, "Form", at as u64),
        why => said.form(&why),
    }
}

/// Says a name and a number.
fn numbered(said: &mut Said, name: &str, number: u64) {
    said.word(name);
    said.join(":");
    said.number(number);
}

/// Says what a server denied.
fn say_denied(said: &mut Said, denial: Denial) {
    match denial {
        Denial::Rpc { low, high } => {
            numbered(said, "Rpc", low as u64);
            said.join(":");
            said.number(high as u64);
        }
        Denial::Auth { stat } => numbered(said, "Auth", stat as u64),
        Denial::Accept { stat } => numbered(said, "Accept", stat as u64),
        Denial::Gss { major, minor } => {
            numbered(said, "Gss", major as u64);
            said.join(":");
            said.number(minor as u64);
        }
    }
}
