//! Marks by region.

ghost use Rattle.std.specs.Prelude.{◌≡◌, ◌≤◌, List, [], IfOk, replicate, length, get_or, slice_set};
ghost use Rattle.seq_accounting.specs.Marks.{number_of};
ghost use Rattle.seq_accounting.specs.Regions.{IsPutAt, IsPouredAt};

use crate::error::NoMemory;
use crate::mark::Mark;
use crate::marks::Marks;
use crate::region::PLACES;
use std::alloc::Global;
use std::marker::Model;

/// Marks of each region. Contracts see for each place 0 to 64 the list of marks.
pub(crate) struct RegionMarks {
    places: Vec<Marks>,
}

/// By hand, as that of kv_cell's `Octets`: the crates above call it.
impl Drop for RegionMarks {
    fn drop(self) {
        let RegionMarks { places: _ } = self;
    }
}

impl Model for RegionMarks {
    ghost use Rattle.std.specs.Prelude.{◌≡◌, List, length};
    ghost use Rattle.seq_accounting.specs.Marks.{FamilyMark};

    ghost Value = { List (List FamilyMark) };

    ghost view = { λ r. r.places.items };

    ghost invariant = { λ r. length r.places.items ≡ 65 };
}

impl RegionMarks {
    /// No mark of any region.
    pub(crate) fn new(alloc: Global) -> Result<RegionMarks, NoMemory>
        ensures { IfOk result (λ marks. marks ≡ replicate PLACES []) }
    {
        let mut places = Vec::with_capacity(alloc, PLACES)?;
        for _ in 0..PLACES {
            places.push(Marks::new())?;
        }
        Ok(RegionMarks { places })
    }

    /// The number of a family among the region's marks, 0 where there is none.
    pub(crate) fn get(&self, region: u32, family: &[u8]) -> u64
        ensures { result ≡ number_of (get_or self.now region []) region family.now }
    {
        match self.places.get(region as usize) {
            Some(marks) => marks.get(region, family),
            None => 0,
        }
    }

    /// Puts a lone mark into the region's marks. Where there is one of its family and region, that one takes its number.
    pub(crate) fn put(&mut self, region: u32, mark: Box<Mark>)
        requires region { region ≤ 64 }
        requires lone { mark.value.below ≡ [] }
        ensures put { IsPutAt self.old self.new region mark.value }
        ensures places { length self.new ≡ 65 }
    {
        self.places[region as usize].put(mark);
    }

    /// Puts in each of these marks whose family has no number among the region's.
    pub(crate) fn pour(&mut self, region: u32, marks: Marks)
        requires { region ≤ 64 }
        ensures poured { IsPouredAt self.old self.new region marks }
        ensures places { length self.new ≡ 65 }
    {
        self.places[region as usize].pour(marks);
    }

    /// The region's marks, which are gone from here.
    pub(crate) fn take(&mut self, region: u32) -> Marks
        requires { region ≤ 64 }
        ensures taken { result ≡ get_or self.old region [] }
        ensures left { self.new ≡ slice_set self.old region [] }
        ensures places { length self.new ≡ 65 }
    {
        self.places[region as usize].take()
    }

    /// These marks are the region's now.
    pub(crate) fn set(&mut self, region: u32, marks: Marks)
        requires { region ≤ 64 }
        ensures set { self.new ≡ slice_set self.old region marks }
        ensures places { length self.new ≡ 65 }
    {
        self.places[region as usize] = marks;
    }
}
