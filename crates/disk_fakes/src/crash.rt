// What a crash may leave: the calls played once more, in each of which some part may be lost.
ghost use Rattle.std.specs.Prelude.{◌≡◌, ◌≤◌, ℕ, List, length, IfOk, OnOk, IsTrue};
ghost use Rattle.log_model.specs.Files.{Files};
ghost use Rattle.disk_images.specs.Crash.{IsImageNow};
ghost use Rattle.disk_fakes.specs.declared.op.Op.TheVariants.{Create, Write, Rename, Remove};
ghost use Rattle.disk_fakes.specs.Table.{files_in};
ghost use Rattle.disk_fakes.specs.History.{after, quiet, MeetAll, AreNamed};
ghost use Rattle.disk_fakes.specs.Candidate.{IsPinned, IsSettled, Carries};

use crate::op::{Op, is_pinned, is_settled};
use crate::piece::{every_second_torn, front_half};
use crate::table::FileTable;
use disk_images::Name;
use std::alloc::{AllocError, Global};

/// What a crash leaves of a call that nothing has made durable.
#[derive(Clone, Copy)]
enum Fate {
    Done,
    Lost,
    Torn,
    Cut,
}

impl Fate {
    /// The fate of the call at this place.
    fn of(choice: u64, place: usize) -> Fate {
        match choice {
            0 => Fate::Done,
            1 => Fate::Lost,
            2 => Fate::Torn,
            _ => Fate::mixed(choice, place as u64),
        }
    }

    fn mixed(choice: u64, place: u64) -> Fate {
        let bits = choice
            .wrapping_add(place)
            .wrapping_mul(0x9E37_79B9_7F4A_7C15)
            >> 62;
        match bits {
            0 => Fate::Done,
            1 => Fate::Lost,
            2 => Fate::Torn,
            _ => Fate::Cut,
        }
    }

    /// Tells whether a name that is made, moved or taken away stays as it was.
    fn loses_names(self) -> bool {
        matches!(self, Fate::Lost | Fate::Cut)
    }

    /// What stands of a write.
    fn piece_of(self, alloc: Global, bytes: &[u8]) -> Result<Vec<u8>, AllocError>
        ensures { IfOk result (λ piece. length piece.items ≤ length bytes.now) }
    {
        match self {
            Fate::Done => bytes.to_vec(alloc),
            Fate::Lost => Ok(Vec::new(alloc)),
            Fate::Torn => every_second_torn(alloc, bytes),
            Fate::Cut => front_half(alloc, bytes),
        }
    }

    /// Tells whether the call that made this name may be undone.
    fn undoes_name(self, name: Name, rest: &[Op]) -> bool
        ensures { IsTrue result → (¬ IsPinned rest.now name) × (¬ IsSettled rest.now) }
    {
        self.loses_names() && !is_pinned(rest, name) && !is_settled(rest)
    }

    /// Tells whether a removal may be undone.
    fn undoes_removal(self, rest: &[Op]) -> bool
        ensures { IsTrue result → ¬ IsSettled rest.now }
    {
        self.loses_names() && !is_settled(rest)
    }
}

/// The files that a crash after these calls may leave, where the disk was quiet before them.
pub fn played(first: &FileTable, calls: &[Op], choice: u64) -> Result<FileTable, AllocError>
    requires named { AreNamed (files_in first.now) }
    requires met { MeetAll (quiet (files_in first.now)) calls.now }
    ensures image { IfOk result (λ image. IsImageNow (after (quiet (files_in first.now)) calls.now) (files_in image)) }
    ensures named { IfOk result (λ image. AreNamed (files_in image)) }
{
    let mut image = first.copy_all()?;
    for (place, op) in calls.iter().enumerate() {
        play(&mut image, op, &calls[place + 1..], Fate::of(choice, place))?;
    }
    Ok(image)
}

fn play(image: &mut FileTable, op: &Op, rest: &[Op], fate: Fate) -> Result<(), AllocError>
    ensures { OnOk result (Carries op.now rest.now (files_in image.old) (files_in image.new)) }
{
    match op {
        Op::Create(name) => play_create(image, *name, rest, fate),
        Op::Write(name, at, bytes) => play_write(image, *name, *at, bytes, rest, fate),
        Op::Rename(from, to) => play_rename(image, *from, *to, rest, fate),
        Op::Remove(name) => {
            play_remove(image, *name, rest, fate);
            Ok(())
        }
        Op::Sync(_) => Ok(()),
        Op::Settle => Ok(()),
    }
}

fn play_create(image: &mut FileTable, name: Name, rest: &[Op], fate: Fate) -> Result<(), AllocError>
    ensures { OnOk result (Carries (Create name) rest.now (files_in image.old) (files_in image.new)) }
{
    if fate.undoes_name(name, rest) {
        return Ok(());
    }
    let alloc = image.alloc;
    image.put(name, Vec::new(alloc))
}

fn play_write(
    image: &mut FileTable,
    name: Name,
    at: u64,
    bytes: &Vec<u8>,
    rest: &[Op],
    fate: Fate,
) -> Result<(), AllocError>
    ensures { OnOk result (Carries (Write name at bytes.now) rest.now (files_in image.old) (files_in image.new)) }
{
    if is_pinned(rest, name) {
        return image.write_within(name, at, bytes);
    }
    let piece = fate.piece_of(image.alloc, bytes)?;
    image.write_within(name, at, &piece)
}

fn play_rename(
    image: &mut FileTable,
    from: Name,
    to: Name,
    rest: &[Op],
    fate: Fate,
) -> Result<(), AllocError>
    ensures { OnOk result (Carries (Rename from to) rest.now (files_in image.old) (files_in image.new)) }
{
    if fate.undoes_name(to, rest) {
        return Ok(());
    }
    let copy = image.copy(from)?;
    image.put(to, copy)?;
    image.remove(from);
    Ok(())
}

fn play_remove(image: &mut FileTable, name: Name, rest: &[Op], fate: Fate)
    ensures { Carries (Remove name) rest.now (files_in image.old) (files_in image.new) }
{
    if !fate.undoes_removal(rest) {
        image.remove(name);
    }
}
