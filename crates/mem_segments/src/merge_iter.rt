//! A walk over several segments in one order, within a range of rows.

ghost use Rattle.std.specs.Prelude.{◌≡◌, ◌↔◌, IsTrue, List, suc, [], ◌∷◌, map, filter, option_map, IfOk, MatchOption};
ghost use Rattle.std.specs.Arc.{arc_value};
ghost use Rattle.cell_model.specs.Join.{joined};
ghost use Rattle.cell_model.specs.Order.{NumberedCell, cells_of};
ghost use Rattle.region_model.specs.Journal.{is_in_range};
ghost use Rattle.mem_segments.specs.Leader.{Leads, IsLed};
ghost use Rattle.mem_segments.specs.Walk.{past, to_come};

use crate::cursor::Cursor;
use crate::rest::Rest;
use crate::row::Row;
use crate::segment::Segment;
use kv_cell::{Cell, NoMemory};
use std::alloc::Global;
use std::cmp::Ordering;
use std::marker::Model;
use std::sync::Arc;

/// A walk over the cells of several segments. Contracts see the list of what is still to come.
#[derive(Drop)]
pub struct MergeIter<'a> {
    rests: Vec<Rest<'a>>,
}

impl<'a> Model for MergeIter<'a> {
    ghost use Rattle.std.specs.Prelude.{List};
    ghost use Rattle.cell_model.specs.Order.{NumberedCell};
    ghost use Rattle.mem_segments.specs.Walk.{merged_all};

    ghost Value = { List NumberedCell };

    ghost view = { λ w. merged_all w.rests.items };
}

impl<'a> MergeIter<'a> {
    /// A walk over the cells of these segments whose rows lie at or above `from` and, if `to` isn't empty, below
    /// `to`. Of a key and number that stands in two of them, the later segment's is given.
    pub fn new(
        alloc: Global,
        parts: &'a [Arc<Segment, Global>],
        from: &[u8],
        to: &[u8],
    ) -> Result<MergeIter<'a>, NoMemory>
        ensures { IfOk result (λ walk. walk ≡ filter (is_in_range from.now to.now) (cells_of (joined (map arc_value parts.now)))) }
    {
        let rests = rests_of(alloc, parts, None, from, to)?;
        Ok(MergeIter { rests })
    }

    /// The same walk taken up again, after the cell that was given last.
    pub fn resume(
        alloc: Global,
        parts: &'a [Arc<Segment, Global>],
        cursor: &Cursor,
        from: &[u8],
        to: &[u8],
    ) -> Result<MergeIter<'a>, NoMemory>
        ensures { IfOk result (λ walk. walk ≡ to_come cursor.now (filter (is_in_range from.now to.now) (cells_of (joined (map arc_value parts.now))))) }
    {
        let rests = rests_of(alloc, parts, cursor.last(), from, to)?;
        Ok(MergeIter { rests })
    }

    /// Whether nothing is to come.
    pub fn is_done(&self) -> bool
        ensures { IsTrue result ↔ (self.now ≡ []) }
    {
        leader_of(&self.rests).is_none()
    }

    /// The next number and cell: none exactly after the last. With k segments it takes a time linear in k.
    pub fn next(&mut self) -> Option<(u64, &'a Cell)>
        ensures { MatchOption result ((self.old ≡ []) × (self.new ≡ [])) (λ x. self.old ≡ (x.0, x.1.now) ∷ self.new) }
    {
        match self.next_row() {
            None => None,
            Some(row) => Some((row.number(), row.cell())),
        }
    }

    /// The next one as a row, which can be shared.
    pub fn next_row(&mut self) -> Option<&'a Row>
        ensures { MatchOption result ((self.old ≡ []) × (self.new ≡ [])) (λ row. self.old ≡ row.now ∷ self.new) }
    {
        match leader_of(&self.rests) {
            None => None,
            Some(leader) => {
                pass_leader(&mut self.rests, leader);
                Some(leader.row)
            }
        }
    }
}

/// The least head of a walk.
#[derive(Clone, Copy)]
pub(crate) struct Leader<'a> {
    row: &'a Row,
    // where the segment stands whose head it is
    place: usize,
    // whether no other head ties with it
    is_alone: bool,
}

/// What each segment has within the range of rows, after the row that was given last.
fn rests_of<'a>(
    alloc: Global,
    parts: &'a [Arc<Segment, Global>],
    last: Option<&Row>,
    from: &[u8],
    to: &[u8],
) -> Result<Vec<Rest<'a>>, NoMemory>
    ensures { IfOk result
        (λ rests. rests.items ≡ map
        (λ part. to_come (option_map (λ row. row.now) last.entry) (filter (is_in_range from.now to.now) (cells_of (arc_value part)))) parts.now) }
{
    let mut rests = Vec::with_capacity(alloc, parts.len())?;
    for part in parts {
        rests.push(Rest::of(part, from, to).behind(last))?;
    }
    Ok(rests)
}

/// The least of the heads, and where it stands; of those that tie the last one.
fn leader_of<'a>(rests: &[Rest<'a>]) -> Option<Leader<'a>>
    ensures { IsLed 0 rests.now result }
{
    let mut leader = None;
    let mut left = rests.len();
    while left > 0 {
        left -= 1;
        leader = leading(&rests[left], left, leader);
    }
    leader
}

/// The leader of this segment, which stands at `place`, and of those after it, whose leader is given.
fn leading<'a>(rest: &Rest<'a>, place: usize, leader: Option<Leader<'a>>) -> Option<Leader<'a>>
    ensures { (after : List (List NumberedCell)) → IsLed (suc place) after leader.entry → IsLed place (rest.now ∷ after) result }
{
    match (rest.head(), leader) {
        (None, _) => leader,
        (Some(row), None) => Some(Leader {
            row,
            place,
            is_alone: true,
        }),
        (Some(row), Some(later)) => match row.compare(later.row) {
            Ordering::Less => Some(Leader {
                row,
                place,
                is_alone: true,
            }),
            Ordering::Equal => Some(Leader {
                row: later.row,
                place: later.place,
                is_alone: false,
            }),
            Ordering::Greater => Some(later),
        },
    }
}

/// Goes past the leader, and past each head that ties with it.
fn pass_leader(rests: &mut [Rest<'_>], leader: Leader<'_>)
    requires { Leads 0 rests.old leader }
    ensures { rests.new ≡ map (past leader.entry.row.now) rests.old }
{
    if leader.is_alone {
        rests[leader.place].skip();
    } else {
        pass_all(rests, leader.row);
    }
}

/// Goes past each head that ties with this row.
fn pass_all(rests: &mut [Rest<'_>], least: &Row)
    ensures { rests.new ≡ map (past least.now) rests.old }
{
    for rest in rests.iter_mut() {
        rest.pass(least);
    }
}
