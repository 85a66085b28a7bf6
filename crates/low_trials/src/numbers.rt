//! Numbers that are drawn in order and completed in any.

ghost use Rattle.std.specs.Prelude.{◌≡◌, ◌<◌, ◌≤◌, ◌∷◌, [], IfOk, MatchOption};
ghost use Rattle.std.specs.VecDeque.{deque_capacity, deque_len};
ghost use Rattle.write_queue.specs.Numbers.{Numbers};
ghost use Rattle.write_queue.specs.Flights.{AreOut};

use std::alloc::Global;
use std::collections::VecDeque;
use std::test::Fail;
use write_queue::{WriteEntry, WriteQueue};

const COUNT: usize = 200;

// the load generator's next number
fn next(x: u64) -> u64 {
    x.wrapping_mul(6364136223846793005)
        .wrapping_add(1442695040888963407)
}

// one of the entries, which this number picks
fn pick(out: &mut VecDeque<WriteEntry>, x: u64) -> Option<WriteEntry>
    ensures out { (q : Numbers) → AreOut q out.old.items → MatchOption result (deque_len out.new ≡ 0) (λ entry. AreOut q (entry ∷ out.new.items)) }
    ensures fewer { MatchOption result (deque_len out.new ≡ 0) (λ entry. deque_len out.new < deque_len out.old) }
{
    if out.is_empty() {
        return None;
    }
    let turn = (x >> 33) as usize % out.len();
    out.rotate_left(turn);
    match out.pop_front() {
        Some(entry) => Some(entry),
        None => None,
    }
}

// the greatest number up to which each is completed, looked up
fn point_of(done: &[bool]) -> usize {
    done.iter().position(|d| !*d).unwrap_or(done.len())
}

fn begin_all(queue: &mut WriteQueue, out: &mut VecDeque<WriteEntry>)
    requires queue { queue.old.numbers ≡ record { last = 0; done = [] } }
    requires room { COUNT ≤ queue.old.room }
    requires none { out.old.items ≡ [] }
    requires place { COUNT ≤ deque_capacity out.old }
    ensures { AreOut queue.new.numbers out.new.items }
{
    for _begun in 0..COUNT {
        out.push_back_reserved(queue.begin());
    }
}

// whether all are completed, each giving the point that is looked up
fn complete_all(queue: &mut WriteQueue, mut out: VecDeque<WriteEntry>) -> bool
    requires { AreOut queue.old.numbers out.items }
{
    let mut done = [false; COUNT];
    let mut x = 1;
    let mut all = true;
    while let Some(entry) = pick(&mut out, x) {
        if let Some(mark) = done.get_mut(entry.number().saturating_sub(1) as usize) {
            *mark = true;
        }
        all = queue.complete(entry) == point_of(&done) as u64 && all;
        x = next(x);
    }
    out.destroy_empty();
    all && queue.read_point() == 200
}

// a queue with room for them; it is never dropped
fn new_queue(alloc: Global) -> Result<&'static mut WriteQueue, Fail>
    ensures numbers { IfOk result (λ queue. queue.now.numbers ≡ record { last = 0; done = [] }) }
    ensures room { IfOk result (λ queue. COUNT ≤ queue.now.room) }
{
    let mut queue = WriteQueue::new(alloc, 0)?;
    queue.reserve(COUNT)?;
    Ok(Box::leak(Box::new(alloc, queue)?))
}

/// The read points where the third of three numbers is completed first, then the first, then the second.
fn complete_three(queue: &mut WriteQueue) -> [u64; 3]
    requires queue { queue.old.numbers ≡ record { last = 0; done = [] } }
    requires room { 3 ≤ queue.old.room }
{
    let first = queue.begin();
    let second = queue.begin();
    let third = queue.begin();
    [
        queue.complete(third),
        queue.complete(first),
        queue.complete(second),
    ]
}

#[test]
fn three_completed_out_of_order(rt: HostRuntime) -> Result<(), Fail> {
    let queue = new_queue(rt.alloc())?;
    let points = complete_three(queue);
    assert!(rt; points == [0, 1, 3]);
    Ok(())
}

#[test]
fn two_hundred_in_the_order_of_the_generator(rt: HostRuntime) -> Result<(), Fail> {
    let queue = new_queue(rt.alloc())?;
    let mut out = VecDeque::with_capacity(rt.alloc(), COUNT)?;
    begin_all(queue, &mut out);
    assert!(rt; complete_all(queue, out));
    Ok(())
}
