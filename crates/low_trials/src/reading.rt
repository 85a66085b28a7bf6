//! Store files that are read.

use crate::one_file::OneFile;
use disk_images::{Name, NameKind};
use std::alloc::Global;
use std::process::Abort;
use std::test::*;
use store_file::{ReadRefusal, read_store};

const STORE_1: Name = Name {
    kind: NameKind::Store,
    region: 1,
    number: 1,
};

/// The store of region 1 and family `f` with the sequence ids 1 to 2, and two puts of column `f:q` at timestamp 1: row `a`,
/// value `v`, tags `ab` with sequence id 2 from offset 36 on, and row `b`, value `w` with sequence id 1 from 72 on.
const TWO_CELLS: &[u8] = &[
    0xA5, b'H', b'W', b'S', b'2', 0, 0, 0, 1, 0, 1, b'f', 0, 0, 0, 0, 0, 0, 0, 1, 0, 0, 0, 0, 0, 0,
    0, 2, 0, 0, 0, 0, 0, 0, 0, 2, 0, 0, 0, 0, 0, 0, 0, 2, 0, 0, 0, 0x0F, 0, 0, 0, 1, 0, 1, b'a', 1,
    b'f', b'q', 0, 0, 0, 0, 0, 0, 0, 1, 4, b'v', 0, 2, b'a', b'b', 0, 0, 0, 0, 0, 0, 0, 1, 0, 0, 0,
    0x0F, 0, 0, 0, 1, 0, 1, b'b', 1, b'f', b'q', 0, 0, 0, 0, 0, 0, 0, 1, 4, b'w', 0, 0,
];

/// The same two puts without tags as `HWS1`, from the offsets 33 and 65 on.
const FORMER: &[u8] = &[
    0xA5, b'H', b'W', b'S', b'1', 0, 0, 0, 1, 0, 0, 0, 0, 0, 0, 0, 1, 0, 0, 0, 0, 0, 0, 0, 2, 0, 0,
    0, 0, 0, 0, 0, 2, 0, 0, 0, 0, 0, 0, 0, 2, 0, 0, 0, 0x0F, 0, 0, 0, 1, 0, 1, b'a', 1, b'f', b'q',
    0, 0, 0, 0, 0, 0, 0, 1, 4, b'v', 0, 0, 0, 0, 0, 0, 0, 1, 0, 0, 0, 0x0F, 0, 0, 0, 1, 0, 1, b'b',
    1, b'f', b'q', 0, 0, 0, 0, 0, 0, 0, 1, 4, b'w',
];

/// The scope of a store, the first and the last sequence id that it covers, and how many cells it has.
type Numbers = (u8, u64, u64, usize);

/// A change of a file: a byte at a place.
type Change = (u8, u8);

/// A disk with so many bytes of a file, with zeros after it, and with changes.
fn disk_of(file: &[u8], changes: &[Change], len: usize) -> OneFile {
    let mut bytes = [0; 107];
    let whole = file.len().min(107);
    bytes[..whole].copy_from_slice(&file[..whole]);
    for (at, byte) in changes {
        if (*at as usize) < 107 {
            bytes[*at as usize] = *byte;
        }
    }
    OneFile::of(bytes, len)
}

/// What is read of this disk: a store's numbers, or None where none is there.
fn read(alloc: Global, mut disk: OneFile) -> Result<Option<Numbers>, ReadRefusal> {
    match read_store(alloc, &mut disk, STORE_1) {
        Ok(Some(text)) => Ok(Some((text.scope, text.from, text.to, text.cells.len()))),
        Ok(None) => Ok(None),
        Err(refusal) => Err(refusal),
    }
}

/// A file, what is changed and how many bytes are read, and what its numbers are then, or None where no store is there.
const READ: &[(&[u8], &[Change], usize, Option<Numbers>)] = &[
    // No change.
    (TWO_CELLS, &[], 106, Some((0, 1, 2, 2))),
    (FORMER, &[], 97, Some((0, 1, 2, 2))),
    // No byte, an open gate alone, a closed gate, and another byte for the gate.
    (TWO_CELLS, &[], 0, None),
    (TWO_CELLS, &[], 1, None),
    (TWO_CELLS, &[(0, 0)], 106, None),
    (TWO_CELLS, &[(0, 0xA4), (1, 0)], 2, None),
    (FORMER, &[(0, 0)], 97, None),
    // No cell.
    (TWO_CELLS, &[(35, 0)], 36, Some((0, 1, 2, 0))),
    (FORMER, &[(32, 0)], 33, Some((0, 1, 2, 0))),
    // Two versions of one key, the one with the higher sequence id first.
    (TWO_CELLS, &[(90, b'a')], 106, Some((0, 1, 2, 2))),
    (FORMER, &[(83, b'a')], 97, Some((0, 1, 2, 2))),
];

#[test]
fn stores_are_read_or_are_not_there(rt: HostRuntime) {
    for (file, changes, len, want) in READ {
        let found = read(rt.alloc(), disk_of(file, changes, *len));
        assert!(rt; found == Ok(*want), "{len}");
    }
}

/// What is changed of `HWS1`, how many bytes are read, and where it is damaged then.
const FORMER_DAMAGED: &[(&[Change], u8, u64)] = &[
    // Another word, region, or order of the sequence ids.
    (&[(1, b'X')], 97, 1),
    (&[(8, 2)], 97, 5),
    (&[(16, 0)], 97, 9),
    (&[(16, 3)], 97, 9),
    (&[(18, 1)], 97, 17),
    // The other word over what it begins.
    (&[(4, b'2')], 97, 35),
    // One more and one less counted.
    (&[(32, 3)], 97, 97),
    (&[(32, 1)], 97, 65),
    (&[(25, 1)], 97, 97),
    // A sequence id that isn't covered.
    (&[(40, 3)], 97, 33),
    (&[(40, 0)], 97, 33),
    (&[(72, 3)], 97, 65),
    (&[(72, 0)], 97, 65),
    // Another length of a key, another type.
    (&[(44, 0)], 97, 33),
    (&[(95, 5)], 97, 65),
    // The second row is below the first, or is the first with its sequence id or a higher one.
    (&[(51, b'c')], 97, 65),
    (&[(83, b'a'), (72, 2)], 97, 65),
    (&[(83, b'a'), (40, 1), (72, 2)], 97, 65),
    // Of two causes the first counts; the order of the sequence ids comes before the limit of the last.
    (&[(1, b'X'), (8, 2)], 97, 1),
    (&[(8, 2), (16, 0)], 97, 5),
    (&[(10, 2), (18, 1)], 97, 9),
    (&[(18, 1), (32, 3)], 97, 17),
    (&[(40, 3), (83, b'a'), (72, 2)], 97, 33),
    (&[(95, 5), (32, 1)], 97, 65),
    // Where the last sequence id isn't whole the first can't be above it.
    (&[(9, 1)], 24, 17),
    // A byte after the last pair.
    (&[], 98, 97),
];

/// The same of `HWS2`.
const DAMAGED: &[(&[Change], u8, u64)] = &[
    // Another word, region, or order of the sequence ids.
    (&[(1, b'X')], 106, 1),
    (&[(4, b'3')], 106, 1),
    (&[(8, 2)], 106, 5),
    (&[(19, 0)], 106, 12),
    (&[(19, 3)], 106, 12),
    (&[(21, 1)], 106, 20),
    // The other word over what it begins.
    (&[(4, b'1')], 106, 9),
    // Another scope; scope 1 with a family; a family of 128 bytes; one that runs after the file; one that the cells don't have.
    (&[(9, 2)], 106, 9),
    (&[(9, 1)], 106, 10),
    (&[(9, 255)], 106, 9),
    (&[(10, 128)], 106, 10),
    (&[(10, 255)], 106, 10),
    (&[(10, 127)], 106, 11),
    (&[(11, b'g')], 106, 36),
    (&[(56, b'g')], 106, 36),
    (&[(92, b'g')], 106, 72),
    // One more and one less counted.
    (&[(35, 3)], 106, 106),
    (&[(35, 1)], 106, 72),
    (&[(28, 1)], 106, 106),
    // A sequence id that isn't covered.
    (&[(43, 3)], 106, 36),
    (&[(79, 0)], 106, 72),
    // Another length of a key, another type, tags of 4,097 bytes, tags that run after the file.
    (&[(47, 0)], 106, 36),
    (&[(102, 5)], 106, 72),
    (&[(68, 0x10), (69, 1)], 106, 36),
    (&[(105, 1)], 106, 72),
    // The second row is below the first, or is the first with its sequence id.
    (&[(54, b'c')], 106, 72),
    (&[(90, b'a'), (79, 2)], 106, 72),
    // Of two causes the first counts; the order of the sequence ids comes before the limit of the last.
    (&[(8, 2), (9, 1)], 106, 5),
    (&[(9, 2), (10, 128)], 106, 9),
    (&[(19, 0), (56, b'g')], 106, 12),
    (&[(13, 2), (21, 1)], 106, 12),
    // Where the last sequence id isn't whole the first can't be above it.
    (&[(12, 1)], 27, 20),
    // A byte after the last pair.
    (&[], 107, 106),
];

/// Asserts where a file is damaged with each of these changes.
fn assert_damaged(rt: &impl Abort, alloc: Global, file: &[u8], cases: &[(&[Change], u8, u64)]) {
    for (changes, len, at) in cases {
        let found = read(alloc, disk_of(file, changes, *len as usize));
        assert!(rt;
            found == Err(ReadRefusal::Damaged { at: *at }),
            "{len} {at}"
        );
    }
}

/// Where the fields and the pairs of `HWS1` begin, and those of `HWS2`.
const FORMER_FIELDS: &[u64] = &[1, 5, 9, 17, 25, 33, 65];

const FIELDS: &[u64] = &[1, 5, 9, 10, 11, 12, 20, 28, 36, 72];

/// The last of these places that isn't after this one.
fn last_up_to(fields: &[u64], place: u64) -> u64 {
    let mut last = 0;
    for field in fields {
        if *field <= place {
            last = *field;
        }
    }
    last
}

/// Asserts that a file that is cut is damaged at the field, or the pair, in which it ends.
fn assert_cut(rt: &impl Abort, alloc: Global, file: &[u8], fields: &[u64]) {
    for len in 2..file.len() {
        let found = read(alloc, disk_of(file, &[], len));
        let at = last_up_to(fields, len as u64);
        assert!(rt; found == Err(ReadRefusal::Damaged { at }), "{len}");
    }
}

/// Damage is reported at its first place: of fields that are wrong, and of a file that is cut.
#[test]
fn bad_stores(rt: HostRuntime) {
    let alloc = rt.alloc();
    assert_damaged(&rt, alloc, FORMER, FORMER_DAMAGED);
    assert_damaged(&rt, alloc, TWO_CELLS, DAMAGED);
    assert_cut(&rt, alloc, FORMER, FORMER_FIELDS);
    assert_cut(&rt, alloc, TWO_CELLS, FIELDS);
}

/// Whether so large a file can't be held, and is refused unread.
fn is_refused_unread(alloc: Global, disk: &mut OneFile) -> bool {
    disk.size = Some(0x8000_0000_0000_0000);
    matches!(read_store(alloc, disk, STORE_1), Err(ReadRefusal::Memory)) && disk.calls == 1
}

#[test]
fn file_of_another_size_than_is_told(rt: HostRuntime) {
    let mut disk = disk_of(TWO_CELLS, &[], 106);
    assert!(rt; is_refused_unread(rt.alloc(), &mut disk));
    // It got shorter, and is read as it is.
    disk.size = Some(1000);
    assert!(rt; read(rt.alloc(), disk) == Ok(Some((0, 1, 2, 2))));
}
