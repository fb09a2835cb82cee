//! The octets of a record.
ghost use Rattle.std.specs.Prelude.{◌≡◌, ◌++◌, ◌∷◌, [], length};
ghost use Rattle.std.specs.Int.{w32, w64, to_be_bytes};
ghost use Rattle.replay_journal.specs.Files.{body_of, mark_in, greatest_in};

use gss_base::Mark;
use sec_base::Moment;

/// How many octets a record takes, with the gate behind it.
pub const RECORD: usize = 45;

/// A gate that is open, and one that is closed.
pub const OPEN: u8 = 0x4a;

pub const SHUT: u8 = 0;

/// The body of a record, and a closed gate.
pub fn write_body(mark: Mark, greatest: Moment) -> [u8; 45]
    ensures value { result ≡ body_of mark greatest ++ 0 ∷ [] }
    ensures size { length result ≡ 45 }
    ensures back { mark_in (body_of mark greatest) ≡ mark }
    ensures greatest { greatest_in (body_of mark greatest) ≡ greatest }
{
    let [
        w0,
        w1,
        w2,
        w3,
        w4,
        w5,
        w6,
        w7,
        w8,
        w9,
        w10,
        w11,
        w12,
        w13,
        w14,
        w15,
        w16,
        w17,
        w18,
        w19,
    ] = mark.who;
    let [a0, a1, a2, a3, a4, a5, a6, a7] = mark.at.secs().to_be_bytes();
    let [b0, b1, b2, b3] = mark.at.micros().to_be_bytes();
    let [c0, c1, c2, c3, c4, c5, c6, c7] = greatest.secs().to_be_bytes();
    let [d0, d1, d2, d3] = greatest.micros().to_be_bytes();
    [
        w0, w1, w2, w3, w4, w5, w6, w7, w8, w9, w10, w11, w12, w13, w14, w15, w16, w17, w18, w19,
        a0, a1, a2, a3, a4, a5, a6, a7, b0, b1, b2, b3, c0, c1, c2, c3, c4, c5, c6, c7, d0, d1, d2,
        d3, SHUT,
    ]
}
