// The calls that a disk has done.
ghost use Rattle.std.specs.Prelude.{◌≡◌, ◌<◌, ◌++◌, [], ◌∷◌, vec_len, vec_capacity, IsTrue, false};
ghost use Rattle.disk_fakes.specs.Candidate.{Needs, IsPinned, IsSettle, IsSettled};

use disk_images::Name;

#[derive(Drop)]
pub enum Op {
    Create(Name),
    Write(Name, u64, Vec<u8>),
    Sync(Name),
    Rename(Name, Name),
    Remove(Name),
    Settle,
}

/// Adds a call to the list, which has room for it.
pub fn note(ops: &mut Vec<Op>, op: Op)
    requires { vec_len ops.old < vec_capacity ops.old }
    ensures { ops.new.items ≡ ops.old.items ++ op ∷ [] }
{
    match ops.push(op) {
        Ok(()) => {}
        Err(_) => unreachable!(),
    }
}

/// Tells whether the call makes the file durable, or takes its name away.
fn is_needing(op: &Op, name: Name) -> bool
    ensures { Needs op.now name → IsTrue result }
{
    match op {
        Op::Sync(needed) | Op::Rename(needed, _) | Op::Remove(needed) => *needed == name,
        _ => false,
    }
}

fn is_settle(op: &Op) -> bool
    ensures { IsSettle op.now → IsTrue result }
{
    matches!(op, Op::Settle)
}

/// Tells whether one of the calls makes the file durable, or takes its name away.
pub fn is_pinned(calls: &[Op], name: Name) -> bool
    ensures { result ≡ false → ¬ IsPinned calls.now name }
{
    for op in calls {
        if is_needing(op, name) {
            return true;
        }
    }
    false
}

/// Tells whether one of the calls is a settle.
pub fn is_settled(calls: &[Op]) -> bool
    ensures { result ≡ false → ¬ IsSettled calls.now }
{
    for op in calls {
        if is_settle(op) {
            return true;
        }
    }
    false
}
