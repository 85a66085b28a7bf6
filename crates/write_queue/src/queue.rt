//! The write queue.

ghost use Rattle.std.specs.Prelude.{◌≡◌, ◌+◌, ◌-◌, ◌<◌, ◌≤◌, ◌^◌, [], ◌++◌, length, true, IfOk, OnOk, OnErr, replicate};
ghost use Rattle.region_model.specs.Journal.{IsPoint};
ghost use Rattle.std.specs.VecDeque.{deque_capacity};
ghost use Rattle.write_queue.specs.Numbers.{last_begun, completed, IsOut, IsIdle, begun, with_completed, IsOpen};

use crate::entry::WriteEntry;
use crate::error::NoMemory;
use std::alloc::Global;
use std::collections::VecDeque;
use std::marker::Model;

// how many entries may be out before the queue grows for the first time
const FIRST_ROOM: usize = 64;

/// The numbers after the read point, in order, each with a mark whether it is completed.
#[derive(Drop)]
pub struct WriteQueue {
    last: u64,
    read: u64,
    marks: VecDeque<bool>,
}

impl Model for WriteQueue {
    ghost use Rattle.std.specs.Prelude.{◌-◌};
    ghost use Rattle.std.specs.VecDeque.{deque_capacity, deque_len};
    ghost use Rattle.write_queue.specs.Numbers.{Queue, numbers_of, IsSettled};

    ghost Value = { Queue };

    ghost view = { λ q. record { numbers = numbers_of q.last q.read q.marks.items; room = deque_capacity q.marks - deque_len q.marks } };

    ghost invariant = { λ q. IsSettled q.last q.read q.marks.items };
}

impl WriteQueue {
    /// A queue that goes on after `last`, which is at most 2^48-1.
    pub fn new(alloc: Global, last: u64) -> Result<WriteQueue, NoMemory>
        requires { last < 2 ^ 48 }
        ensures { IfOk result (λ q. q.numbers ≡ record { last = last; done = [] }) }
    {
        Ok(WriteQueue {
            last,
            read: last,
            marks: VecDeque::with_capacity(alloc, FIRST_ROOM)?,
        })
    }

    /// Makes room for `count` more entries. Where it is refused, that room was not there.
    pub fn reserve(&mut self, count: usize) -> Result<(), NoMemory>
        ensures ok { OnOk result (count ≤ self.new.room) }
        ensures err { OnErr result (self.old.room < count) }
        ensures same { self.new.numbers ≡ self.old.numbers }
        ensures room { self.old.room ≤ self.new.room }
    {
        Ok(self.marks.reserve(count)?)
    }

    /// Draws the next number. It takes no memory.
    pub fn begin(&mut self) -> WriteEntry
        requires room { 1 ≤ self.old.room }
        requires limit { last_begun self.old.numbers + 1 < 2 ^ 48 }
        ensures number { result ≡ last_begun self.old.numbers + 1 }
        ensures queue { self.new ≡ record { numbers = begun self.old.numbers; room = self.old.room - 1 } }
    {
        let number = self.write_point() + 1;
        self.marks.push_back_reserved(false);
        WriteEntry::of(number)
    }

    /// Completes a number that is out, and answers the read point. It takes no memory, and amortised constant time.
    pub fn complete(&mut self, entry: WriteEntry) -> u64
        requires { IsOut self.old.numbers entry }
        ensures queue { self.new.numbers ≡ with_completed self.old.numbers entry }
        ensures point { IsPoint self.new.numbers.last (completed self.new.numbers) result }
        ensures room { self.old.room ≤ self.new.room }
    {
        let number = entry.spend();
        self.marks[(number - self.read - 1) as usize] = true;
        self.read += settle(&mut self.marks);
        self.read
    }

    /// The greatest number up to which each number is completed.
    pub fn read_point(&self) -> u64
        ensures { IsPoint self.now.numbers.last (completed self.now.numbers) result }
    {
        self.read
    }

    /// The last number that was begun.
    pub fn write_point(&self) -> u64
        ensures point { result ≡ last_begun self.now.numbers }
        ensures limit { result < 2 ^ 48 }
    {
        self.read + self.marks.len() as u64
    }

    /// Goes on after `number`, as if it were the last one completed. It takes no memory.
    pub fn advance_to(&mut self, number: u64)
        requires idle { IsIdle self.old.numbers }
        requires later { last_begun self.old.numbers ≤ number }
        requires limit { number < 2 ^ 48 }
        ensures { self.new ≡ record { numbers = record { last = number; done = [] }; room = self.old.room } }
    {
        self.last = number;
        self.read = number;
    }
}

/// Takes the completed marks from the front, and answers how many they were.
fn settle(marks: &mut VecDeque<bool>) -> u64
    requires { length marks.old.items < 2 ^ 48 }
    ensures items { replicate result true ++ marks.new.items ≡ marks.old.items }
    ensures open { IsOpen marks.new.items }
    ensures capacity { deque_capacity marks.new ≡ deque_capacity marks.old }
{
    let mut taken = 0;
    while !marks.is_empty() && marks[0] {
        marks.pop_front();
        taken += 1;
    }
    taken
}
