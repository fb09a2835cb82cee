//! The times of the held marks as a heap, so that the least is found at once.
ghost use Rattle.std.specs.Prelude.{◌≡◌, IsTrue, false, ℕ, ◌+◌, ◌-◌, ◌*◌, ◌/◌, ◌<◌, ◌≤◌, List, []};
ghost use Rattle.std.specs.Prelude.{IfOk, length, slice_index_or, vec_len, vec_capacity};
ghost use Rattle.replay_cache.specs.Tally.{late, late_one};
ghost use Rattle.replay_cache.specs.Heap.{IsHeap, IsHeapBelow, IsHeapAbove, IsLesser, Exchanged};

use sec_base::NoMemory;
use std::alloc::Global;
use std::marker::Model;

/// A bag of times with room for a number of them. Contracts see a `Bag`.
#[derive(Drop)]
pub struct Times {
    room: usize,
    heap: Vec<u64>,
}

impl Model for Times {
    ghost use Rattle.std.specs.Prelude.{vec_capacity, ◌≤◌};
    ghost use Rattle.replay_cache.specs.Heap.{Bag, IsHeap};

    ghost Value = { Bag };

    ghost view = { λ t. record { room = t.room; times = t.heap.items } };

    ghost invariant = { λ t. IsHeap t.heap.items × (t.room ≤ vec_capacity t.heap) };
}

impl Times {
    /// An empty bag with room for `room` times.
    pub fn new(alloc: Global, room: usize) -> Result<Times, NoMemory>
        ensures room { IfOk result (λ made. made.room ≡ room) }
        ensures empty { IfOk result (λ made. made.times ≡ []) }
    {
        let heap = Vec::with_capacity(alloc, room)?;
        Ok(Times { room, heap })
    }

    /// How many times are in the bag.
    pub fn len(&self) -> usize
        ensures { result ≡ length self.now.times }
    {
        self.heap.len()
    }

    /// Puts a time into the bag.
    pub fn put(&mut self, at: u64)
        requires { length self.old.times < self.old.room }
        ensures room { self.new.room ≡ self.old.room }
        ensures more { length self.new.times ≡ length self.old.times + 1 }
        ensures counted { (moment : ℕ)
            → late moment self.new.times ≡ late moment self.old.times + late_one moment at }
    {
        self.heap.push_reserved(at);
        let place = self.heap.len() - 1;
        rise(&mut self.heap, place);
    }

    /// Takes the times before `floor` out of the bag.
    pub fn forget(&mut self, floor: u64)
        ensures room { self.new.room ≡ self.old.room }
        ensures kept { (moment : ℕ) → floor ≤ moment
            → late moment self.new.times ≡ late moment self.old.times }
        ensures late { late floor self.new.times ≡ length self.new.times }
    {
        forget_before(&mut self.heap, floor);
    }
}

fn forget_before(heap: &mut Vec<u64>, floor: u64)
    requires { IsHeap heap.old.items }
    ensures heap { IsHeap heap.new.items }
    ensures room { vec_capacity heap.new ≡ vec_capacity heap.old }
    ensures kept { (moment : ℕ) → floor ≤ moment
        → late moment heap.new.items ≡ late moment heap.old.items }
    ensures late { late floor heap.new.items ≡ length heap.new.items }
{
    while is_first_before(heap, floor) {
        drop_first(heap);
    }
}

fn is_first_before(heap: &[u64], floor: u64) -> bool
    requires { IsHeap heap.now }
    ensures before { IsTrue result → (0 < length heap.now) × (slice_index_or heap.now 0 0 < floor) }
    ensures late { result ≡ false → late floor heap.now ≡ length heap.now }
{
    heap.len() > 0 && heap[0] < floor
}

// Takes the first time out, which is the least.
fn drop_first(heap: &mut Vec<u64>)
    requires heap { IsHeap heap.old.items }
    requires some { 0 < vec_len heap.old }
    ensures heap { IsHeap heap.new.items }
    ensures room { vec_capacity heap.new ≡ vec_capacity heap.old }
    ensures less { vec_len heap.new + 1 ≡ vec_len heap.old }
    ensures counted { (moment : ℕ) → late moment heap.new.items + late_one moment
        (slice_index_or heap.old.items 0 0) ≡ late moment heap.old.items }
{
    if let Some(last) = heap.pop() {
        if heap.len() > 0 {
            put_first(heap, last);
        }
    }
}

// Puts a time in the place of the first, and lets it sink.
fn put_first(heap: &mut [u64], at: u64)
    requires heap { IsHeap heap.old }
    requires some { 0 < length heap.old }
    ensures heap { IsHeap heap.new }
    ensures counted { (moment : ℕ) → late moment heap.new + late_one moment
        (slice_index_or heap.old 0 0) ≡ late moment heap.old + late_one moment at }
{
    heap[0] = at;
    sink(heap);
}

fn rise(heap: &mut [u64], from: usize)
    requires { IsHeapBelow heap.old «from» }
    ensures heap { IsHeap heap.new }
    ensures same { (moment : ℕ) → late moment heap.new ≡ late moment heap.old }
{
    let mut place = from;
    while place > 0 {
        let parent = (place - 1) / 2;
        if heap[parent] <= heap[place] {
            return;
        }
        exchange(heap, parent, place);
        place = parent;
    }
}

fn sink(heap: &mut [u64])
    requires { IsHeapAbove heap.old 0 }
    ensures heap { IsHeap heap.new }
    ensures same { (moment : ℕ) → late moment heap.new ≡ late moment heap.old }
{
    let mut place = 0;
    while 2 * place + 1 < heap.len() {
        let child = lesser_child(heap, place);
        if heap[place] <= heap[child] {
            return;
        }
        exchange(heap, place, child);
        place = child;
    }
}

fn lesser_child(heap: &[u64], place: usize) -> usize
    requires { 2 * place + 1 < length heap.now }
    ensures { IsLesser heap.now place result }
{
    let left = 2 * place + 1;
    let right = left + 1;
    if right < heap.len() && heap[right] < heap[left] {
        right
    } else {
        left
    }
}

fn exchange(heap: &mut [u64], a: usize, b: usize)
    requires order { a < b }
    requires inside { b < length heap.old }
    ensures { Exchanged heap.old heap.new a b }
{
    let first = heap[a];
    heap[a] = heap[b];
    heap[b] = first;
}
