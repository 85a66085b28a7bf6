//! What a walk has left of one segment.

ghost use Rattle.std.specs.Prelude.{◌≡◌, ◌≤◌, length, take, drop, filter, not, option_map, Some};
ghost use Rattle.std.specs.Ordering.{nat_cmp, is_lt};
ghost use Rattle.std.specs.Cmp.Lexicographic.{slice_cmp};
ghost use Rattle.cell_model.specs.Order.{NumberedCell, cells_of};
ghost use Rattle.cell_model.specs.Merge.{IsRising};
ghost use Rattle.region_model.specs.Journal.{is_in_range};
ghost use Rattle.mem_segments.specs.Walk.{head_of, past, is_before, to_come};

use crate::row::Row;
use crate::segment::Segment;
use std::marker::Model;

/// The rows of a segment that a walk hasn't given yet.
#[derive(Drop)]
pub(crate) struct Rest<'a> {
    rows: &'a [Row],
}

impl<'a> Model for Rest<'a> {
    ghost use Rattle.std.specs.Prelude.{List};
    ghost use Rattle.cell_model.specs.Order.{NumberedCell};

    ghost Value = { List NumberedCell };

    ghost view = { λ r. r.rows.now };
}

impl<'a> Rest<'a> {
    /// The segment's cells whose rows lie at or above `from` and, if `to` isn't empty, below `to`.
    pub(crate) fn of(segment: &'a Segment, from: &[u8], to: &[u8]) -> Rest<'a>
        ensures { result ≡ filter (is_in_range from.now to.now) (cells_of segment.now) }
    {
        let rows = segment.rows();
        let first = before(rows, from);
        let upper = &rows[first..];
        if to.is_empty() {
            return Rest { rows: upper };
        }
        let end = before(upper, to);
        Rest {
            rows: &upper[..end],
        }
    }

    /// What lies after the row that was given last.
    pub(crate) fn behind(self, last: Option<&Row>) -> Rest<'a>
        requires { IsRising self }
        ensures { result ≡ to_come (option_map (λ row. row.now) last.entry) self.entry }
    {
        match last {
            None => self,
            Some(last) => Rest {
                rows: &self.rows[given(self.rows, last)..],
            },
        }
    }

    /// The first row that is left.
    pub(crate) fn head(&self) -> Option<&'a Row>
        ensures { option_map (λ row. row.now) result ≡ head_of self.now }
    {
        self.rows.first()
    }

    /// Goes past the first row, where there is one.
    pub(crate) fn skip(&mut self)
        ensures { self.new ≡ drop 1 self.old }
    {
        if !self.rows.is_empty() {
            self.rows = &self.rows[1..];
        }
    }

    /// Goes past the first row, where it ties with this one.
    pub(crate) fn pass(&mut self, least: &Row)
        ensures { self.new ≡ past least.now self.old }
    {
        if let Some(head) = self.rows.first() {
            if head.compare(least).is_eq() {
                self.rows = &self.rows[1..];
            }
        }
    }
}

/// How many of these rows, which are in order, have a row key below this one.
fn before(rows: &[Row], bound: &[u8]) -> usize
    requires { IsRising rows.now }
    ensures within { result ≤ length rows.now }
    ensures below { take result rows.now ≡ filter (is_before bound.now) rows.now }
    ensures others { drop result rows.now ≡ filter (λ x. not (is_before bound.now x)) rows.now }
{
    rows.partition_point(|row| row.is_before(bound))
}

/// How many of these rows, which are in order, come before this one or tie with it.
fn given(rows: &[Row], last: &Row) -> usize
    requires { IsRising rows.now }
    ensures within { result ≤ length rows.now }
    ensures others { drop result rows.now ≡ to_come (Some last.now) rows.now }
{
    rows.partition_point(|row| row.is_at_most(last))
}
