//! What the types of octets and of labels tell.

ghost use Rattle.accept_book.specs.Honest.{IsOctets};
ghost use Rattle.pair_laws.specs.Posts.{IsName};

use gss_base::Label;

/// Does nothing: these are octets.
pub(crate) fn tell_octets(octets: &[u8])
    ensures { IsOctets octets.now }
{
    let _count = octets.len();
}

/// Does nothing; its contract says that a label is a name: at most 255 octets, in UTF-8.
pub fn tell_name(label: &Label)
    ensures { IsName label.now }
{
    let text = label.text();
    tell_octets(text.as_bytes());
}
