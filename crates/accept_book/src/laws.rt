//! Laws of a book, and of the rule of a record.
ghost use Rattle.accept_book.specs.Asking.{AsksLaws};
ghost use Rattle.accept_book.specs.BookLaws.{BookLaws};
ghost use Rattle.accept_book.specs.Honest.{HonestLaw, HonestMade};
ghost use Rattle.accept_book.specs.RuleExamples.{RulesByHand};

use crate::book_answer::Lease;
use krb_derive::SealKeys;
use spnego_core::prove_accept_laws;

/// Rules of records by hand: what single records are answered, given what was answered to the questions that they ask.
pub fn rules_by_hand()
    ensures { RulesByHand }
{}

/// No record asks more than two questions, and one that is refused before its number is judged asks for no number.
pub fn records_ask_in_order()
    ensures { AsksLaws }
{}

/// Does nothing that stays; its contract says what an honest record of a context is answered: its number is asked for, and its call is done
/// exactly where that is admitted.
pub fn honest_records(lease: &Lease)
    ensures { HonestLaw lease.now }
{
    let _keys = SealKeys::of(&lease.outcome.key, 24);
}

/// Calls that an end makes by the protocol are honest: what is said of honest records is said of these.
pub fn made_calls_are_honest()
    ensures { HonestMade }
{}

/// Does nothing; its contract holds what a token's step hands out, finds verified and fixes: nothing where the token is refused; a context is fixed
/// with one authenticator, by the request that was judged; what a lease, its entry and its context have is what was fixed; good ends stay good; and no
/// token is refused by a journal.
pub fn prove_book_laws()
    ensures { BookLaws }
{
    prove_accept_laws();
}
