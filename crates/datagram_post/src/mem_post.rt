//! Datagrams in memory.

ghost use Rattle.std.specs.Prelude.{◌≡◌, ◌≤◌, [], IsTrue, IsErr, IfOk, OnOk, OnErr};
ghost use Rattle.std.specs.Prelude.{length, take, drop, vec_len};
ghost use Rattle.sec_base.specs.Answers.{Rose};
ghost use Rattle.datagram_post.specs.Posts.{FitsIn, Hears, Sends, datagram};

use crate::post::{Post, PostFault};
use sec_base::Octets;
use std::alloc::Global;

/// Datagrams in memory: those of a stated list come, and what is sent is kept. Its list says what is lost, doubled and reordered on
/// the way. It tells its datagrams.
#[derive(Drop)]
pub struct MemPost {
    alloc: Global,
    coming: Vec<Option<Octets>>,
    at: usize,
    heard: Vec<Option<Octets>>,
    sent: Vec<Octets>,
    failing: Vec<u64>,
    calls: u64,
    faults: u64,
    ghost within: { at ≤ vec_len coming },
}

impl MemPost {
    ghost use Rattle.sec_base.specs.Failures.{failures_from, fails_next, one_more};
    ghost use Rattle.datagram_post.specs.MemPost.{still_coming, post_failures};

    /// A post to which these come, in this order, None for a wait in which nothing does; behind the last nothing comes any more.
    /// The calls of `recv` and `send` whose numbers, counted from 1, stand in `failing` fail, and so does one that finds no memory.
    pub fn new(alloc: Global, coming: Vec<Option<Octets>>, failing: Vec<u64>) -> MemPost
        ensures coming { still_coming result ≡ coming.items }
        ensures heard { ⟦<MemPost as Post>⟧.heard result ≡ [] }
        ensures sent { ⟦<MemPost as Post>⟧.sent result ≡ [] }
        ensures tells { IsTrue (⟦<MemPost as Post>⟧.tells result) }
        ensures faults { ⟦<MemPost as Post>⟧.faults result ≡ 0 }
        ensures failing { post_failures result ≡ failures_from failing.items }
    {
        MemPost {
            alloc,
            coming,
            at: 0,
            heard: Vec::new(alloc),
            sent: Vec::new(alloc),
            failing,
            calls: 0,
            faults: 0,
        }
    }

    /// What was sent so far, in order.
    pub fn sent(&self) -> &[Octets]
        ensures { result.now ≡ ⟦<MemPost as Post>⟧.sent self.now }
    {
        self.sent.as_slice()
    }

    /// How many calls failed.
    pub fn faults(&self) -> u64
        ensures { result ≡ ⟦<MemPost as Post>⟧.faults self.now }
    {
        self.faults
    }

    /// Counts a call, and says whether it is to fail.
    fn fails(&mut self) -> bool
        ensures next { result ≡ fails_next (post_failures self.old) }
        ensures counted { post_failures self.new ≡ one_more (post_failures self.old) }
        ensures faults { self.new.faults ≡ self.old.faults }
        ensures heard { self.new.heard ≡ self.old.heard }
        ensures sent { self.new.sent ≡ self.old.sent }
        ensures coming { self.new.coming ≡ self.old.coming }
        ensures at { self.new.at ≡ self.old.at }
    {
        self.calls = self.calls.saturating_add(1);
        self.failing.contains(&self.calls)
    }

    /// Counts a fault.
    fn fault(&mut self) -> PostFault
        ensures rose { Rose self.old.faults self.new.faults }
        ensures faults { self.old.faults ≤ self.new.faults }
        ensures failing { post_failures self.new ≡ post_failures self.old }
        ensures heard { self.new.heard ≡ self.old.heard }
        ensures sent { self.new.sent ≡ self.old.sent }
        ensures coming { self.new.coming ≡ self.old.coming }
        ensures at { self.new.at ≡ self.old.at }
    {
        self.faults = self.faults.saturating_add(1);
        PostFault
    }
}

/// Copies as much of `octets` as fits to the front of `buf`, and says how many octets these are.
fn copy_out(octets: &[u8], buf: &mut [u8]) -> usize
    ensures count { result ≤ length buf.new }
    ensures size { length buf.new ≡ length buf.old }
    ensures copied { take result buf.new ≡ take (length buf.old) octets.now }
{
    let count = octets.len().min(buf.len());
    buf[..count].copy_from_slice(&octets[..count]);
    count
}

impl Post for MemPost {
    ghost use Rattle.std.specs.Prelude.{true};
    ghost use Rattle.sec_base.specs.Failures.{fails_next, one_more};
    ghost use Rattle.datagram_post.specs.MemPost.{still_coming, next_coming, post_failures};

    ghost faults = { λ p. p.faults };

    ghost tells = { λ _. true };

    ghost heard = { λ p. p.heard.items };

    ghost sent = { λ p. p.sent.items };

    fn recv(&mut self, buf: &mut [u8]) -> Result<Option<usize>, PostFault>
        ensures fits { FitsIn result buf.new }
        ensures size { length buf.new ≡ length buf.old }
        ensures told { IsTrue (⟦<MemPost as Post>⟧.tells self.old)
            → Hears (⟦<MemPost as Post>⟧.heard self.old)
            (⟦<MemPost as Post>⟧.heard self.new) result buf.new }
        ensures sent { IsTrue (⟦<MemPost as Post>⟧.tells self.old)
            → ⟦<MemPost as Post>⟧.sent self.new ≡ ⟦<MemPost as Post>⟧.sent self.old }
        ensures tells { ⟦<MemPost as Post>⟧.tells self.new ≡ ⟦<MemPost as Post>⟧.tells self.old }
        ensures fault { OnErr result
            (Rose (⟦<MemPost as Post>⟧.faults self.old) (⟦<MemPost as Post>⟧.faults self.new)) }
        ensures faults { ⟦<MemPost as Post>⟧.faults self.old ≤ ⟦<MemPost as Post>⟧.faults self.new }
        // it fails where it is to, and else at want of memory alone
        ensures fails { IsTrue (fails_next (post_failures self.old)) → IsErr result }
        ensures counted { post_failures self.new ≡ one_more (post_failures self.old) }
        ensures next { IfOk result (λ count. datagram count buf.new
            ≡ next_coming (still_coming self.old) (length buf.old)) }
        ensures coming { OnOk result (still_coming self.new ≡ drop 1 (still_coming self.old)) }
        ensures stays { OnErr result (still_coming self.new ≡ still_coming self.old) }
    {
        if self.fails() || self.heard.reserve(1).is_err() {
            return Err(self.fault());
        }
        let count = match self.coming.get(self.at) {
            Some(Some(octets)) => copy_out(octets.as_slice(), buf),
            Some(None) => {
                self.at += 1;
                self.heard.push_reserved(None);
                return Ok(None);
            }
            None => {
                self.heard.push_reserved(None);
                return Ok(None);
            }
        };
        match Octets::of(self.alloc, &buf[..count]) {
            Ok(octets) => {
                self.at += 1;
                self.heard.push_reserved(Some(octets));
                Ok(Some(count))
            }
            Err(_) => Err(self.fault()),
        }
    }

    fn send(&mut self, bytes: &[u8]) -> Result<(), PostFault>
        ensures told { IsTrue (⟦<MemPost as Post>⟧.tells self.old)
            → Sends (⟦<MemPost as Post>⟧.sent self.old)
            (⟦<MemPost as Post>⟧.sent self.new) bytes.now result }
        ensures heard { IsTrue (⟦<MemPost as Post>⟧.tells self.old)
            → ⟦<MemPost as Post>⟧.heard self.new ≡ ⟦<MemPost as Post>⟧.heard self.old }
        ensures tells { ⟦<MemPost as Post>⟧.tells self.new ≡ ⟦<MemPost as Post>⟧.tells self.old }
        ensures fault { OnErr result
            (Rose (⟦<MemPost as Post>⟧.faults self.old) (⟦<MemPost as Post>⟧.faults self.new)) }
        ensures faults { ⟦<MemPost as Post>⟧.faults self.old ≤ ⟦<MemPost as Post>⟧.faults self.new }
        // it fails where it is to, and else at want of memory alone
        ensures fails { IsTrue (fails_next (post_failures self.old)) → IsErr result }
        ensures counted { post_failures self.new ≡ one_more (post_failures self.old) }
        ensures coming { still_coming self.new ≡ still_coming self.old }
    {
        if self.fails() || self.sent.reserve(1).is_err() {
            return Err(self.fault());
        }
        match Octets::of(self.alloc, bytes) {
            Ok(octets) => {
                self.sent.push_reserved(octets);
                Ok(())
            }
            Err(_) => Err(self.fault()),
        }
    }
}
