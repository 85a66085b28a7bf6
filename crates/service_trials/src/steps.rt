//! What each member of a crew of sixteen does, as tables of steps. A member waits for others by signs.

use crate::watch::Sign;

/// How a member pushes: how often it tries while the ring is full, and whether it helps the log between two tries, or sleeps for a
/// millisecond.
#[derive(Clone, Copy)]
pub(crate) struct Way {
    pub(crate) tries: u64,
    pub(crate) helps: bool,
}

const ONCE: Way = Way {
    tries: 1,
    helps: false,
};

const WAITING: Way = Way {
    tries: 20_000,
    helps: false,
};

const HELPING: Way = Way {
    tries: 1_000_000,
    helps: true,
};

/// A turn of the log: a consumer's, that of a sync, a roll, a flush of the member's region up to its last edit, or to wait for that edit.
#[derive(Clone, Copy)]
pub(crate) enum Turn {
    Move,
    Sync,
    Roll,
    Flush,
    Wait,
}

/// A step of a member.
#[derive(Clone, Copy)]
pub(crate) enum Step {
    /// Pushes the next edit. It is answered with 1, or with 0 where there was no room.
    Put(Way),
    /// Pushes the wish that the edits be durable. It is answered so too.
    Ask(Way),
    /// Takes a turn. It is answered with how many items were moved, entries synced or in the log that was closed, up to which edit was
    /// flushed, or with 1 where the edit is durable; with `BUSY`, with `EMPTY` where there was nothing to move, or with `OTHER`.
    Take(Turn),
    /// All three.
    PutAnd(Way, Turn),
    Give(Sign),
}

pub(crate) const BUSY: u64 = u64::MAX;

pub(crate) const OTHER: u64 = u64::MAX - 1;

pub(crate) const EMPTY: u64 = u64::MAX - 2;

/// A step, how often it is taken, and what it has to be answered each time.
pub(crate) type Row = (Step, u64, u64);

/// How many milliseconds one waits at most for others.
const PATIENCE: u64 = 20_000;

/// How many edits each of sixteen threads puts.
pub(crate) const PUTS: u64 = 1_000;

/// The first edits of all fill the ring of 1,024 items. Then each push that finds it full helps. Each thread waits for each of its edits,
/// some of them one by one and some many at a time.
const CROWD: &[Row] = &[
    (Step::Put(HELPING), 64, 1),
    (Step::Give(Sign::Come), 1, 1),
    (Step::Give(Sign::Came(16, PATIENCE)), 1, 16),
    (Step::PutAnd(HELPING, Turn::Wait), 436, 1),
    (Step::Put(HELPING), 249, 1),
    (Step::PutAnd(HELPING, Turn::Wait), 1, 1),
    (Step::Put(HELPING), 249, 1),
    (Step::PutAnd(HELPING, Turn::Wait), 1, 1),
];

/// Three puts of which two are waited for, with a roll and a flush after them.
const SCRIPT: &[Row] = &[
    (Step::PutAnd(ONCE, Turn::Wait), 1, 1),
    (Step::Take(Turn::Roll), 1, 1),
    (Step::PutAnd(ONCE, Turn::Wait), 1, 1),
    (Step::Put(ONCE), 1, 1),
    (Step::Take(Turn::Flush), 1, 3),
];

/// Commits the first edit of another member, and is held back in that. Then it comes.
const COMMIT: &[Row] = &[
    (Step::Give(Sign::Came(1, PATIENCE)), 1, 1),
    (Step::Take(Turn::Sync), 1, 1),
    (Step::Give(Sign::Come), 1, 1),
];

/// The second edit is moved while the other thread is in its sync.
const MOVE: &[Row] = &[
    (Step::PutAnd(ONCE, Turn::Move), 1, 2),
    (Step::Give(Sign::Hold), 1, 1),
    (Step::Give(Sign::Come), 1, 1),
    (Step::Give(Sign::Syncs(2)), 1, 2),
    (Step::Put(ONCE), 1, 1),
    (Step::Take(Turn::Move), 1, 1),
    (Step::Give(Sign::Came(1, 0)), 1, 1),
    (Step::Give(Sign::Syncs(2)), 1, 2),
    (Step::Give(Sign::Release), 1, 1),
];

/// After the held sync are two edits that are moved with their wish, each before a sync turn that finds the device busy, one that is moved
/// only, and one that is not moved. The roll moves it too.
const ROLL: &[Row] = &[
    (Step::PutAnd(ONCE, Turn::Move), 1, 2),
    (Step::Give(Sign::Hold), 1, 1),
    (Step::Give(Sign::Come), 1, 1),
    (Step::Give(Sign::Syncs(2)), 1, 2),
    (Step::PutAnd(ONCE, Turn::Move), 1, 2),
    (Step::Take(Turn::Sync), 1, BUSY),
    (Step::PutAnd(ONCE, Turn::Move), 1, 2),
    (Step::Take(Turn::Sync), 1, BUSY),
    (Step::Put(ONCE), 1, 1),
    (Step::Take(Turn::Move), 1, 1),
    (Step::Put(ONCE), 1, 1),
    (Step::Give(Sign::Came(1, 0)), 1, 1),
    (Step::Give(Sign::Syncs(2)), 1, 2),
    (Step::Give(Sign::Release), 1, 1),
    (Step::Take(Turn::Roll), 1, 5),
];

/// Fills the ring, and waits for the edit that is being committed.
const WAIT: &[Row] = &[
    (Step::PutAnd(ONCE, Turn::Move), 1, 2),
    (Step::Give(Sign::Hold), 1, 1),
    (Step::Give(Sign::Come), 1, 1),
    (Step::Give(Sign::Syncs(2)), 1, 2),
    (Step::Ask(ONCE), 1_024, 1),
    (Step::Ask(ONCE), 1, 0),
    (Step::Give(Sign::Come), 1, 1),
    (Step::Take(Turn::Wait), 1, 1),
    (Step::Give(Sign::Come), 1, 1),
];

/// Pushes a wish once the full ring has room: then who waits for the log has moved items, since it found the device's turn taken. It has
/// some time to fall asleep before the commit goes on. Then it has to be answered, and who commits comes too.
const WAKE: &[Row] = &[
    (Step::Give(Sign::Came(2, PATIENCE)), 1, 2),
    (Step::Ask(WAITING), 1, 1),
    (Step::Give(Sign::Came(3, 20)), 1, 2),
    (Step::Give(Sign::Release), 1, 1),
    (Step::Give(Sign::Came(4, PATIENCE)), 1, 4),
];

/// The edit that fills the ring of 1,024 items after the first edit, and the last one that is pushed.
const FULL: u64 = 1_025;

const LAST: u64 = 1_031;

/// Fills the ring, lets the commit go on, and pushes six edits more, each once the ring has room.
const FILL: &[Row] = &[
    (Step::PutAnd(ONCE, Turn::Move), 1, 2),
    (Step::Give(Sign::Hold), 1, 1),
    (Step::Give(Sign::Come), 1, 1),
    (Step::Give(Sign::Syncs(2)), 1, 2),
    (Step::Put(ONCE), FULL - 1, 1),
    (Step::Give(Sign::Came(1, 0)), 1, 1),
    (Step::Give(Sign::Syncs(2)), 1, 2),
    (Step::Give(Sign::Release), 1, 1),
    (Step::Give(Sign::Come), 1, 1),
    (Step::Put(WAITING), LAST - FULL, 1),
];

/// Rolls once the commit is done, while the other one pushes. A roll moves items until the ring was empty at one moment, or 1,024 were moved.
/// Here the ring has as many when it begins, and never fewer before it has moved them: so it leaves what is pushed meanwhile.
const ROLL_FULL: &[Row] = &[
    (Step::Give(Sign::Came(3, PATIENCE)), 1, 3),
    (Step::Take(Turn::Roll), 1, FULL),
];

/// Pushes an edit with its wish, and comes.
const FIRST: &[Row] = &[
    (Step::Put(ONCE), 1, 1),
    (Step::Ask(ONCE), 1, 1),
    (Step::Give(Sign::Come), 1, 1),
];

/// Pushes another one after it, moves the two edits and their wishes, and commits both in one turn, which begins two syncs more.
const SECOND: &[Row] = &[
    (Step::Give(Sign::Came(1, PATIENCE)), 1, 1),
    (Step::Put(ONCE), 1, 1),
    (Step::Ask(ONCE), 1, 1),
    (Step::Take(Turn::Move), 1, 4),
    (Step::Take(Turn::Move), 1, EMPTY),
    (Step::Give(Sign::Syncs(1)), 1, 1),
    (Step::Take(Turn::Sync), 1, 2),
    (Step::Give(Sign::Syncs(3)), 1, 3),
];

/// What is tried: puts of sixteen threads, a script of one, what two do while a third one is held back in a commit, or puts of two that
/// are committed together.
#[derive(Clone, Copy)]
pub(crate) enum Trial {
    Crowd,
    Script,
    Move,
    Roll,
    Wait,
    Full,
    Two,
}

/// A log, and of the edits of the last region the first one in it and the one after the last.
pub(crate) type LogRow = (u64, u64, u64);

impl Trial {
    /// What the member of this region does.
    pub(crate) fn rows(self, region: u32) -> &'static [Row] {
        match (self, region) {
            (Trial::Crowd, _) => CROWD,
            (Trial::Script, 16) => SCRIPT,
            (Trial::Move, 16) => MOVE,
            (Trial::Roll, 16) => ROLL,
            (Trial::Wait, 16) => WAIT,
            (Trial::Wait, 15) => WAKE,
            (Trial::Full, 16) => FILL,
            (Trial::Full, 15) => ROLL_FULL,
            (Trial::Two, 16) => SECOND,
            (Trial::Two, 15) => FIRST,
            (Trial::Move | Trial::Roll | Trial::Wait | Trial::Full, 14) => COMMIT,
            _ => &[],
        }
    }

    /// Up to which edit the last region is synced where all is answered as it has to be, and the logs that are left. A close commits what
    /// is left, of which no seat is told.
    pub(crate) fn left(self) -> (u64, &'static [LogRow]) {
        match self {
            Trial::Crowd => (PUTS, &[(1, 1, PUTS + 1)]),
            Trial::Script => (3, &[]),
            Trial::Move => (1, &[(1, 1, 3)]),
            Trial::Roll => (5, &[(1, 1, 6), (2, 6, 6)]),
            Trial::Wait => (1, &[]),
            Trial::Full => (FULL, &[(1, 1, FULL + 1), (2, FULL + 1, LAST + 1)]),
            Trial::Two => (1, &[(1, 1, 2)]),
        }
    }
}
