//! The messages of the AP exchange of Kerberos (RFC 4120), read and written.
#![tactic(auto)]

mod ap_rep;
mod ap_req;
mod authenticator;
mod authorization_datum;
mod blank;
mod checksum;
mod common;
mod enc_ap_rep_part;
mod enc_ticket_part;
mod encrypted_data;
mod encryption_key;
mod field_reader;
mod field_writer;
mod host_address;
mod krb_error;
mod principal_name;
mod sequence;
mod ticket;
mod transited_encoding;
mod typed_octets;

pub use ap_rep::{ApRep, read_ap_rep, write_ap_rep};
pub use ap_req::{ApReq, read_ap_req, write_ap_req};
pub use authenticator::{Authenticator, read_authenticator, write_authenticator};
pub use authorization_datum::AuthorizationDatum;
pub use checksum::Checksum;
pub use enc_ap_rep_part::{EncApRepPart, read_enc_ap_rep_part, write_enc_ap_rep_part};
pub use enc_ticket_part::{EncTicketPart, read_enc_ticket_part, write_enc_ticket_part};
pub use encrypted_data::EncryptedData;
pub use encryption_key::EncryptionKey;
pub use host_address::HostAddress;
pub use krb_error::{KrbError, read_krb_error, write_krb_error};
pub use principal_name::PrincipalName;
pub use ticket::{Ticket, read_ticket, write_ticket};
pub use transited_encoding::TransitedEncoding;
