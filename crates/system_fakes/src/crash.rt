// What a crash may leave: the calls played once more, in each of which some part may be lost.
ghost use Rattle.std.specs.Prelude.{◌≡◌, ◌≤◌, length, OnOk, IfOk};
ghost use Rattle.system_fakes.specs.declared.op.Op.TheVariants.{Create, Write, Tear, Sync, Move, Unlink, Place, SyncFolder};
ghost use Rattle.system_fakes.specs.Table.{held_in};
ghost use Rattle.system_fakes.specs.History.{after, quiet, MeetAll};
ghost use Rattle.system_fakes.specs.Fair.{IsStart};
ghost use Rattle.system_fakes.specs.Image.{IsPlayed, Plays};

use crate::op::Op;
use crate::piece::{every_second_torn, front_half};
use crate::table::Table;
use disk_images::Name;
use std::alloc::{AllocError, Global};

/// What a crash leaves of a call that no fsync has pinned.
#[derive(Clone, Copy)]
enum Left {
    All,
    Nothing,
    Torn,
    Half,
}

impl Left {
    /// What is left of the call at this place.
    fn of(choice: u64, place: usize) -> Left {
        match choice {
            0 => Left::All,
            1 => Left::Nothing,
            2 => Left::Torn,
            _ => Left::mixed(choice, place as u64),
        }
    }

    fn mixed(choice: u64, place: u64) -> Left {
        let bits = choice
            .wrapping_add(place)
            .wrapping_mul(0x9E37_79B9_7F4A_7C15)
            >> 62;
        match bits {
            0 => Left::All,
            1 => Left::Nothing,
            2 => Left::Torn,
            _ => Left::Half,
        }
    }

    /// Tells whether a change of a name is left.
    fn has_name(self) -> bool {
        matches!(self, Left::All | Left::Torn)
    }

    /// What stands of a write.
    fn piece_of(self, alloc: Global, bytes: &[u8]) -> Result<Vec<u8>, AllocError>
        ensures { IfOk result (λ piece. length piece.items ≤ length bytes.now) }
    {
        match self {
            Left::All => bytes.to_vec(alloc),
            Left::Nothing => Ok(Vec::new(alloc)),
            Left::Torn => every_second_torn(alloc, bytes),
            Left::Half => front_half(alloc, bytes),
        }
    }
}

/// The files that a crash after these calls may leave, where nothing was doubtful before them.
pub fn played(first: &Table, ops: &[Op], choice: u64) -> Result<Table, AllocError>
    requires start { IsStart (held_in first.now) }
    requires met { MeetAll (quiet (held_in first.now)) ops.now }
    ensures { IfOk result (λ image. IsPlayed (after (quiet (held_in first.now)) ops.now) (held_in image)) }
{
    let mut truth = first.copy()?;
    let mut image = first.copy()?;
    for (place, op) in ops.iter().enumerate() {
        play(&mut image, &truth, op, Left::of(choice, place))?;
        truth.apply(op)?;
    }
    Ok(image)
}

/// Plays a call in an image. Before it the files were `truth`.
fn play(image: &mut Table, truth: &Table, op: &Op, left: Left) -> Result<(), AllocError>
    ensures { OnOk result (Plays op.now (held_in truth.now) (held_in image.old) (held_in image.new)) }
{
    match op {
        Op::Create(name) => play_create(image, *name, left),
        Op::Begin(_) => image.skip(),
        Op::Write(inode, at, bytes) => play_write(image, *inode, *at, bytes, left),
        Op::Tear(inode, at, bytes) => play_write(image, *inode, *at, bytes, left),
        Op::Sync(inode) => image.replace(*inode, truth.bytes(*inode)),
        Op::Move(inode, from, to) => play_move(image, *inode, *from, *to, left),
        Op::Unlink(inode, name) => play_unlink(image, *inode, *name, left),
        Op::Place(inode, name) => play_place(image, *inode, *name, left),
        Op::SyncFolder => image.take_names(truth),
        Op::Doubt(_) => Ok(()),
        Op::Tick => Ok(()),
    }
}

fn play_create(image: &mut Table, name: Name, left: Left) -> Result<(), AllocError>
    ensures { (truth : _) → OnOk result (Plays (Create name) truth (held_in image.old) (held_in image.new)) }
{
    if left.has_name() {
        image.create(name)
    } else {
        image.skip()
    }
}

fn play_write(
    image: &mut Table,
    inode: u64,
    at: u64,
    bytes: &Vec<u8>,
    left: Left,
) -> Result<(), AllocError>
    ensures written { (truth : _) → OnOk result (Plays (Write inode at bytes.now) truth (held_in image.old) (held_in image.new)) }
    ensures torn { (truth : _) → OnOk result (Plays (Tear inode at bytes.now) truth (held_in image.old) (held_in image.new)) }
{
    let piece = left.piece_of(image.alloc, bytes)?;
    if image.has(inode) && at <= image.bytes(inode).len() as u64 {
        image.write(inode, at, &piece)
    } else {
        Ok(())
    }
}

fn play_move(
    image: &mut Table,
    inode: u64,
    from: Name,
    to: Name,
    left: Left,
) -> Result<(), AllocError>
    ensures { (truth : _) → OnOk result (Plays (Move inode from to) truth (held_in image.old) (held_in image.new)) }
{
    if left.has_name() && image.leads(from, inode) {
        image.shift(inode, from, to)
    } else {
        Ok(())
    }
}

fn play_unlink(image: &mut Table, inode: u64, name: Name, left: Left) -> Result<(), AllocError>
    ensures { (truth : _) → OnOk result (Plays (Unlink inode name) truth (held_in image.old) (held_in image.new)) }
{
    if left.has_name() && image.leads(name, inode) {
        image.unlink(name)
    } else {
        Ok(())
    }
}

fn play_place(image: &mut Table, inode: u64, name: Name, left: Left) -> Result<(), AllocError>
    ensures { (truth : _) → OnOk result (Plays (Place inode name) truth (held_in image.old) (held_in image.new)) }
{
    if left.has_name() {
        image.point(name, inode)
    } else {
        Ok(())
    }
}
