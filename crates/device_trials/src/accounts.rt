//! The accounting of a log's files over time: the oldest number while a flush of a region, or of one of its families, is under way, and a
//! flush that is aborted.

ghost use Rattle.std.specs.Prelude.{◌≡◌, ◌<◌, ◌≤◌, length, IfOk, IfSome};
ghost use Rattle.device_trials.specs.Underway.{IsIdle, IsOnly};

use kv_cell::{Batch, Cell};
use seq_accounting::{Accounting, FamilyMarks, Flushing, RegionMark};
use std::alloc::Global;
use std::process::Abort;
use std::test::Fail;

/// Regions 1 and 2 with nothing flushed, and region 3 flushed up to 7.
fn three_regions(alloc: Global) -> Result<Accounting, Fail>
    ensures idle { IfOk result (λ a. IsIdle a.flushing) }
    ensures last { IfOk result (λ a. a.last ≡ 0) }
{
    let marks = [
        RegionMark {
            region: 1,
            flushed: 0,
        },
        RegionMark {
            region: 2,
            flushed: 0,
        },
        RegionMark {
            region: 3,
            flushed: 7,
        },
    ];
    let accounting = Accounting::new(alloc, &marks)?;
    Ok(accounting)
}

/// Notes an entry with a cell of each of these families, whose names are one byte. It stops where there is no memory.
fn note(
    rt: &impl Abort,
    alloc: Global,
    accounting: &mut Accounting,
    region: u32,
    number: u64,
    families: &[u8],
)
    requires { region ≤ 64 }
    ensures flushing { accounting.new.flushing ≡ accounting.old.flushing }
    ensures last { accounting.new.last ≡ accounting.old.last }
{
    assert!(rt; accounting.noted(region) < number);
    match marks(alloc, families) {
        Ok(marks) => accounting.note(region, number, marks),
        Err(_) => panic!(rt; "no memory"),
    }
}

/// The marks of an entry with a cell of each of these families.
fn marks(alloc: Global, families: &[u8]) -> Result<FamilyMarks, Fail> {
    let mut cells = Vec::new(alloc);
    for family in families {
        cells.push(Cell::new(alloc, b"r", &[*family], b"q", 1, 4, b"v")?)?;
    }
    Ok(FamilyMarks::of_batch(alloc, &Batch::new(cells)?)?)
}

/// Closes the current file. It stops where there is no memory.
fn close(rt: &impl Abort, accounting: &mut Accounting, file: u64)
    requires { accounting.old.last < file }
    ensures flushing { accounting.new.flushing ≡ accounting.old.flushing }
    ensures last { accounting.new.last ≡ file }
{
    match accounting.reserve_file() {
        Ok(()) => accounting.close_file(file),
        Err(_) => panic!(rt; "no memory"),
    }
}

/// Begins a flush of a region of which something is noted. It stops where there is no memory.
fn start(
    rt: &impl Abort,
    alloc: Global,
    accounting: &mut Accounting,
    region: u32,
    family: Option<&[u8]>,
) -> Flushing
    requires region { region ≤ 64 }
    requires family { IfSome family (λ f. (1 ≤ length f.now) × (length f.now ≤ 127)) }
    requires idle { IsIdle accounting.old.flushing }
    ensures only { IsOnly accounting.new.flushing result }
    ensures last { accounting.new.last ≡ accounting.old.last }
{
    let number = accounting.noted(region);
    assert!(rt; accounting.whole(region) < number);
    match accounting.start_flush(alloc, region, family, number) {
        Ok(flushing) => flushing,
        Err(_) => panic!(rt; "no memory"),
    }
}

fn complete(accounting: &mut Accounting, flushing: Flushing)
    requires { IsOnly accounting.old.flushing flushing }
    ensures idle { IsIdle accounting.new.flushing }
    ensures last { accounting.new.last ≡ accounting.old.last }
{
    accounting.complete_flush(flushing);
}

fn give_up(accounting: &mut Accounting, flushing: Flushing)
    requires { IsOnly accounting.old.flushing flushing }
    ensures idle { IsIdle accounting.new.flushing }
    ensures last { accounting.new.last ≡ accounting.old.last }
{
    accounting.abort_flush(flushing);
}

fn flush(rt: &impl Abort, alloc: Global, accounting: &mut Accounting, region: u32)
    requires region { region ≤ 64 }
    requires idle { IsIdle accounting.old.flushing }
    ensures idle { IsIdle accounting.new.flushing }
    ensures last { accounting.new.last ≡ accounting.old.last }
{
    let flushing = start(rt, alloc, accounting, region, None);
    complete(accounting, flushing);
}

/// The next closed file, and whether all that it has is flushed.
fn next_lower(accounting: &Accounting, after: u64) -> Option<(u64, bool)> {
    match accounting.next_closed(after) {
        Some(file) => Some((file, accounting.all_lower(file))),
        None => None,
    }
}

/// Notes two entries while a flush of region 1 up to 5 is under way: the oldest number stays.
fn note_beside(rt: &impl Abort, alloc: Global, accounting: &mut Accounting, first: &Flushing)
    ensures { accounting.new.flushing ≡ accounting.old.flushing }
{
    assert!(rt; first.region() == 1 && first.number() == 5);
    note(rt, alloc, accounting, 1, 8, b"f");
    note(rt, alloc, accounting, 1, 9, b"f");
    assert!(rt; accounting.oldest_unflushed(1, b"f") == Some(3));
}

/// Notes, flushes, and asserts the oldest number of region 1 on the way.
fn assert_oldest(rt: &impl Abort, alloc: Global, accounting: &mut Accounting)
    requires { IsIdle accounting.old.flushing }
{
    assert!(rt; accounting.oldest_unflushed(1, b"f").is_none());
    note(rt, alloc, accounting, 1, 3, b"f");
    note(rt, alloc, accounting, 1, 5, b"f");
    assert!(rt; accounting.oldest_unflushed(1, b"f") == Some(3));
    let first = start(rt, alloc, accounting, 1, None);
    note_beside(rt, alloc, accounting, &first);
    complete(accounting, first);
    assert!(rt;
        accounting.oldest_unflushed(1, b"f") == Some(8) && accounting.flushed(1, b"f") == 5
    );
    flush(rt, alloc, accounting, 1);
    assert!(rt; accounting.oldest_unflushed(1, b"f").is_none() && accounting.flushed(1, b"f") == 9);
}

#[test]
fn oldest_while_a_flush_is_under_way(rt: HostRuntime) -> Result<(), Fail> {
    let alloc = rt.alloc();
    let mut accounting = three_regions(alloc)?;
    assert_oldest(&rt, alloc, &mut accounting);
    Ok(())
}

/// Gives up a flush of region 3, and asserts that what is flushed stays until another flush.
fn assert_kept(rt: &impl Abort, alloc: Global, accounting: &mut Accounting)
    requires idle { IsIdle accounting.old.flushing }
    requires last { accounting.old.last ≡ 0 }
{
    assert!(rt; accounting.oldest_unflushed(3, b"f").is_none());
    note(rt, alloc, accounting, 3, 9, b"f");
    close(rt, accounting, 1);
    let first = start(rt, alloc, accounting, 3, None);
    note(rt, alloc, accounting, 3, 12, b"f");
    give_up(accounting, first);
    assert!(rt; accounting.flushed(3, b"f") == 7 && accounting.noted(3) == 12);
    assert!(rt; accounting.oldest_unflushed(3, b"f") == Some(9));
    assert!(rt; next_lower(accounting, 0) == Some((1, false)));
    flush(rt, alloc, accounting, 3);
    assert!(rt; accounting.flushed(3, b"f") == 12);
    assert!(rt; next_lower(accounting, 0) == Some((1, true)));
}

#[test]
fn aborted_flush_keeps_what_is_flushed(rt: HostRuntime) -> Result<(), Fail> {
    let alloc = rt.alloc();
    let mut accounting = three_regions(alloc)?;
    assert_kept(&rt, alloc, &mut accounting);
    Ok(())
}

/// Whether region 1 has of this family this flushed number, and this oldest number above it.
fn has(accounting: &Accounting, family: &[u8], flushed: u64, oldest: Option<u64>) -> bool {
    accounting.flushed(1, family) == flushed && accounting.oldest_unflushed(1, family) == oldest
}

/// Flushes family `f` of region 1 beside an entry of both, and asserts that `g` keeps its numbers.
fn assert_first(rt: &impl Abort, alloc: Global, accounting: &mut Accounting)
    requires idle { IsIdle accounting.old.flushing }
    requires last { accounting.old.last ≡ 0 }
    ensures idle { IsIdle accounting.new.flushing }
    ensures last { accounting.new.last ≡ 1 }
{
    note(rt, alloc, accounting, 1, 3, b"fg");
    note(rt, alloc, accounting, 1, 5, b"g");
    close(rt, accounting, 1);
    let first = start(rt, alloc, accounting, 1, Some(b"f"));
    note(rt, alloc, accounting, 1, 8, b"fg");
    complete(accounting, first);
    assert!(rt; has(accounting, b"f", 5, Some(8)) && has(accounting, b"g", 0, Some(3)));
    assert!(rt; accounting.whole(1) == 0 && next_lower(accounting, 0) == Some((1, false)));
}

/// Gives up a flush of `g`, and flushes it then: it alone changes.
fn assert_second(rt: &impl Abort, alloc: Global, accounting: &mut Accounting)
    requires { IsIdle accounting.old.flushing }
{
    let second = start(rt, alloc, accounting, 1, Some(b"g"));
    note(rt, alloc, accounting, 1, 9, b"g");
    give_up(accounting, second);
    assert!(rt; has(accounting, b"f", 5, Some(8)) && has(accounting, b"g", 0, Some(3)));
    let third = start(rt, alloc, accounting, 1, Some(b"g"));
    complete(accounting, third);
    assert!(rt; has(accounting, b"f", 5, Some(8)) && has(accounting, b"g", 9, None));
    assert!(rt; accounting.whole(1) == 0 && next_lower(accounting, 0) == Some((1, true)));
}

#[test]
fn flush_of_a_family_leaves_the_others(rt: HostRuntime) -> Result<(), Fail> {
    let alloc = rt.alloc();
    let mut accounting = three_regions(alloc)?;
    assert_first(&rt, alloc, &mut accounting);
    assert_second(&rt, alloc, &mut accounting);
    Ok(())
}
