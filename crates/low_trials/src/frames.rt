//! Worked log files, given in pieces that are cut anywhere.

ghost use Rattle.std.specs.Prelude.{◌≡◌, ◌+◌, ◌≤◌, ◌<◌, length, OnOk};
ghost use Rattle.entry_frame.specs.Feed.{IsDrained};

use entry_frame::{Entry, Feed, FeedRefusal, FileKey};
use std::alloc::Global;
use std::test::*;

/// The first log with one put into region 1 with number 1 at time 1000: row `r`, column `f:q`, timestamp 1, value `v`; and an end
/// frame after it, from 70 on.
const ENDED: [u8; 85] = [
    b'H', b'W', b'L', b'1', 0, 0, 0, 2, 0, 0, 0, 0, 0, 0, 0, 1, 0xA5, 1, 0, 0, 0, 0x30, 0, 0, 0, 1,
    0, 0, 0, 0, 0, 0, 0, 1, 0, 0, 0, 0, 0, 0, 3, 0xE8, 0, 0, 0, 1, 0, 0, 0, 0x0F, 0, 0, 0, 1, 0, 1,
    b'r', 1, b'f', b'q', 0, 0, 0, 0, 0, 0, 0, 1, 4, b'v', 0xA5, 2, 0, 0, 0, 8, 0, 0, 0, 0, 0, 0, 0,
    1, 0,
];

/// The put with the tags `ab`, of table `t`, and a closed gate.
const TAGGED: [u8; 77] = [
    b'H', b'W', b'L', b'1', 0, 0, 0, 2, 0, 0, 0, 0, 0, 0, 0, 1, 0xA5, 3, 0, 0, 0, 0x36, 0, 0, 0, 1,
    0, 0, 0, 0, 0, 0, 0, 1, 0, 0, 0, 0, 0, 0, 3, 0xE8, 1, b't', 0, 0, 0, 1, 0, 0, 0, 0x0F, 0, 0, 0,
    1, 0, 1, b'r', 1, b'f', b'q', 0, 0, 0, 0, 0, 0, 0, 1, 4, b'v', 0, 2, b'a', b'b', 0,
];

const LOG_1: FileKey = FileKey {
    region: 0,
    number: 1,
};

/// Gives a piece, and takes what there is then: how many more of the entries have this frame, or all too many where one has not.
fn give(
    alloc: Global,
    feed: &mut Feed,
    piece: &[u8],
    frame: &[u8],
    taken: u64,
) -> Result<u64, FeedRefusal>
    requires { feed.old.at + length feed.old.unread + length piece.now < 1000 }
    ensures reach { feed.new.at + length feed.new.unread ≤ feed.old.at + length feed.old.unread + length piece.now }
    ensures drained { OnOk result (IsDrained feed.new) }
{
    feed.give(piece)?;
    let mut sum = taken;
    while let Some(entry) = feed.take(alloc)? {
        let has_it = entry.bytes().as_slice() == frame;
        sum = sum.saturating_add(if has_it { 1 } else { 100 });
    }
    Ok(sum)
}

/// Whether a piece ends before this byte, as the bits say, of which the lowest is the first byte's.
fn is_cut(cuts: u128, at: usize) -> bool {
    at < 128 && cuts >> at & 1 == 1
}

/// How many entries of this frame the bytes have, and their end, where they are given in pieces that are cut so.
fn read(
    alloc: Global,
    bytes: &[u8],
    cuts: u128,
    frame: &[u8],
) -> Result<(u64, Option<u64>), FeedRefusal>
    requires short { length bytes.now < 100 }
{
    let mut feed = Feed::new(alloc, LOG_1);
    let mut taken = 0;
    let mut from = 0;
    for at in 0..bytes.len() {
        if is_cut(cuts, at) {
            taken = give(alloc, &mut feed, &bytes[from..at], frame, taken)?;
            from = at;
        }
    }
    taken = give(alloc, &mut feed, &bytes[from..], frame, taken)?;
    Ok((taken, feed.finish()?))
}

/// The cuts of a case: before two bytes, which may be one, or before each byte.
fn cuts_of(case: u32) -> u128 {
    if case >= 10_000 {
        return u128::MAX;
    }
    1 << case / 100 | 1 << case % 100
}

/// Whether so many entries of the frame and this end are read of the bytes with this cut.
fn reads(alloc: Global, bytes: &[u8], cuts: u128, frame: &[u8], want: (u64, Option<u64>)) -> bool
    requires short { length bytes.now < 100 }
{
    match read(alloc, bytes, cuts, frame) {
        Ok((taken, end)) => taken == want.0 && end == want.1,
        Err(_) => false,
    }
}

/// Whether these bytes have one entry of this frame and this end, in up to three pieces that are cut anywhere, and byte by byte.
fn has_one(alloc: Global, bytes: &[u8], frame: &[u8], end: Option<u64>) -> bool
    requires short { length bytes.now < 100 }
{
    for case in 0..10_001 {
        if !reads(alloc, bytes, cuts_of(case), frame, (1, end)) {
            return false;
        }
    }
    true
}

/// The same of the log with the end frame in a version, whole and without that frame.
fn has_one_of(alloc: Global, version: u8) -> bool {
    let mut bytes = ENDED;
    bytes[7] = version;
    has_one(alloc, &bytes, &ENDED[17..70], Some(1))
        && has_one(alloc, &bytes[..71], &ENDED[17..70], None)
}

#[test]
fn one_entry_is_read_however_its_log_is_cut(rt: HostRuntime) {
    assert!(rt; has_one_of(rt.alloc(), 1));
    assert!(rt; has_one_of(rt.alloc(), 2));
    assert!(rt; has_one(rt.alloc(), &TAGGED, &TAGGED[17..76], None));
}

/// Whether these bytes have no entry and no end, in pieces that are cut anywhere among the first seventeen.
fn has_none(alloc: Global, bytes: &[u8]) -> bool
    requires short { length bytes.now < 100 }
{
    for bits in 0..65_536_u32 {
        if !reads(alloc, bytes, u128::from(bits) << 1, b"", (0, None)) {
            return false;
        }
    }
    true
}

#[test]
fn header_and_gate_have_no_entry_however_they_are_cut(rt: HostRuntime) {
    assert!(rt; has_none(rt.alloc(), &ENDED[..17]));
    assert!(rt; has_none(rt.alloc(), b"HWL1\0\0\0\x02\0\0\0\0\0\0\0\x01\0"));
}
