//! A window as a ring of words with a bit for each number.
ghost use Rattle.std.specs.Prelude.{◌≡◌, ℕ, ◌+◌, ◌%◌, ◌<◌, ◌≤◌, List, [], ◌∷◌, IfOk, length};
ghost use Rattle.std.specs.Prelude.{slice_index_or};
ghost use Rattle.seq_window.specs.Marks.{Shows, IsFresh, verdict_of};
ghost use Rattle.seq_window.specs.Words.{in_words, with_bit};

use sec_base::NoMemory;
use std::alloc::Global;
use std::marker::Model;

/// The greatest sequence number that is ever taken (RFC 2203 section 5.3.3.1, `MAXSEQ`).
pub const GREATEST_NUMBER: u32 = 0x8000_0000;

/// How many numbers have a bit in one word.
const BITS: u32 = 64;

/// How many words the ring has: the numbers of the widest window, 1,024, lie in at most 17 words.
const WORDS: u32 = 17;

/// What a window says of a number, in the order in which it is judged.
#[derive(Clone, Copy, Debug, PartialEq, Eq)]
pub enum Verdict {
    /// It is above `GREATEST_NUMBER`.
    AboveMax,
    /// It lies below the window: the greatest number taken, `last`, is at least `width` above it.
    Below { last: u32 },
    /// It was marked before.
    Repeat,
    /// It may be taken.
    Fresh,
}

/// The numbers that were marked since the window was made or cleared, as far as verdicts need them.
///
/// Contracts see a `Seen`, and say by `Shows` of which numbers, newest first, it speaks.
#[derive(Drop)]
pub struct Window {
    width: u32,
    last: u32,
    words: Vec<u64>,
}

impl Model for Window {
    ghost use Rattle.seq_window.specs.Marks.{Seen};

    ghost Value = { Seen };

    ghost use Rattle.seq_window.specs.Words.{seen_of, IsWhole};

    ghost view = { λ w. seen_of w.width w.last w.words.items };

    ghost invariant = { λ w. IsWhole w.width w.last w.words.items };
}

impl Window {
    /// A window of this width in which nothing was marked.
    pub fn new(alloc: Global, width: u32) -> Result<Window, NoMemory>
        requires some { 0 < width }
        requires bounded { width ≤ 1024 }
        ensures width { IfOk result (λ window. window.width ≡ width) }
        ensures shows { IfOk result (λ window. Shows window []) }
    {
        let mut words = Vec::with_capacity(alloc, WORDS as usize)?;
        for _ in 0..WORDS {
            words.push(0)?;
        }
        Ok(Window {
            width,
            last: 0,
            words,
        })
    }

    /// What is to be said of `n`. Nothing is marked by it.
    pub fn judge(&self, n: u32) -> Verdict
        ensures verdict { (numbers : List ℕ) → Shows self.now numbers
            → result ≡ verdict_of self.now.width numbers n }
        ensures fresh { result ≡ Verdict.Fresh → IsFresh self.now n }
    {
        if n > GREATEST_NUMBER {
            return Verdict::AboveMax;
        }
        if n > self.last {
            return Verdict::Fresh;
        }
        if n + self.width <= self.last {
            return Verdict::Below { last: self.last };
        }
        if is_set(&self.words, n) {
            return Verdict::Repeat;
        }
        Verdict::Fresh
    }

    /// Marks a number that is fresh.
    pub fn mark(&mut self, n: u32)
        requires { IsFresh self.old n }
        ensures width { self.new.width ≡ self.old.width }
        ensures shows { (numbers : List ℕ) → Shows self.old numbers → Shows self.new (n ∷ numbers) }
    {
        move_on(&mut self.words, self.last / BITS, n / BITS);
        set_bit(&mut self.words, n);
        self.last = n.max(self.last);
    }

    /// The greatest number that was marked, 0 where none was.
    pub fn last(&self) -> u32
        ensures { result ≡ self.now.last }
    {
        self.last
    }

    /// How many numbers the window spans.
    pub fn width(&self) -> u32
        ensures value { result ≡ self.now.width }
        ensures some { 0 < result }
        ensures bounded { result ≤ 1024 }
    {
        self.width
    }

    /// Forgets all numbers, as if the window were new.
    pub fn clear(&mut self)
        ensures width { self.new.width ≡ self.old.width }
        ensures shows { Shows self.new [] }
    {
        clear_all(&mut self.words);
        self.last = 0;
    }
}

// The bit of a number: its word is that of its block of 64 numbers, and the blocks go round the ring.
fn is_set(words: &[u64], n: u32) -> bool
    requires { length words.now ≡ 17 }
    ensures { result ≡ in_words words.now n }
{
    let word = words[(n / BITS % WORDS) as usize];
    word >> (n % BITS) & 1 == 1
}

fn set_bit(words: &mut [u64], n: u32)
    requires { length words.old ≡ 17 }
    ensures ring { length words.new ≡ 17 }
    ensures value { words.new ≡ with_bit words.old n }
{
    let place = (n / BITS % WORDS) as usize;
    words[place] = words[place] | 1 << (n % BITS);
}

// Clears the words of the blocks after `last` up to `next`, which take the places of blocks that fall out.
fn move_on(words: &mut [u64], last: u32, next: u32)
    requires ring { length words.old ≡ 17 }
    requires early { last ≤ 0x80000000 }
    requires small { next ≤ 0x80000000 }
    ensures ring { length words.new ≡ 17 }
    ensures kept { (b : ℕ) → b ≤ last → next < b + 17
        → slice_index_or words.new (b % 17) 0 ≡ slice_index_or words.old (b % 17) 0 }
    ensures cleared { (b : ℕ) → last < b → b ≤ next → next < b + 17
        → slice_index_or words.new (b % 17) 0 ≡ 0 }
{
    if next >= WORDS && next - WORDS >= last {
        clear_all(words);
        return;
    }
    for block in last + 1..next + 1 {
        words[(block % WORDS) as usize] = 0;
    }
}

fn clear_all(words: &mut [u64])
    ensures { (k : ℕ) → slice_index_or words.new k 0 ≡ 0 }
{
    for word in words.iter_mut() {
        *word = 0;
    }
}
