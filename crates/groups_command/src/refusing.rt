//! The one line of a run that is refused.

ghost use Rattle.std.specs.Prelude.{◌≡◌, ◌≤◌, ◌+◌, ◌++◌, ℕ, List, Some, IsTrue, decimal, length};
ghost use Rattle.disk_images.specs.Calls.{Rose};
ghost use Rattle.command_base.specs.Prints.{Prints};
ghost use Rattle.groups_command.specs.Status.{refusal_line, refused_group};

use crate::status::{GroupsStatus, WrongRegion};
use arrayvec::ArrayString;
use command_base::{refuse as refuse_one, write_all};
use disk_images::Sink;
use itoa::Buffer;

/// Writes the one line of a run that is refused. Whether it could be written doesn't change the status.
pub fn refuse<K: Sink>(out: &mut K, status: GroupsStatus) -> GroupsStatus
    ensures status { result ≡ status }
    ensures prints { IsTrue K.told → (text : List ℕ) → refusal_line status ≡ Some text
        → Prints (K.taken out.old) (K.taken out.new) text (Rose (K.faults out.old) (K.faults out.new)) }
    ensures later { K.faults out.old ≤ K.faults out.new }
{
    match status.split() {
        Ok(one) => {
            let _ = refuse_one(out, one);
            status
        }
        Err(wrong) => {
            print_group(out, wrong);
            status
        }
    }
}

/// Writes the line that tells of another group's region.
fn print_group<K: Sink>(out: &mut K, wrong: WrongRegion)
    ensures prints { IsTrue K.told
        → Prints (K.taken out.old) (K.taken out.new) (refused_group wrong.disk wrong.region) (Rose (K.faults out.old) (K.faults out.new)) }
    ensures later { K.faults out.old ≤ K.faults out.new }
{
    let line = group_line(wrong.disk, wrong.region);
    let _ = write_all(out, line.as_str().as_bytes());
}

/// The line that tells of another group's region. It takes no memory.
#[tactic(auto, using(crate::proofs::Printing::group_told))]
fn group_line(disk: u32, region: u32) -> ArrayString<64>
    ensures { result.bytes ≡ refused_group disk region }
{
    let mut line = ArrayString::new();
    push_numbered(&mut line, "refused group ", disk as u64);
    push_numbered(&mut line, " ", region as u64);
    line.push_str("\n");
    line
}

/// Adds some words and a number.
fn push_numbered(text: &mut ArrayString<64>, words: &str, n: u64)
    requires { length text.old.bytes + length words.now + 20 ≤ 64 }
    ensures text { text.new.bytes ≡ text.old.bytes ++ (words.now ++ decimal n) }
    ensures len { length text.new.bytes ≤ length text.old.bytes + length words.now + 20 }
{
    text.push_str(words);
    text.push_str(Buffer::new().format(n))
}
