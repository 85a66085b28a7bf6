//! Marks, each of another family of a region.

ghost use Rattle.std.specs.Prelude.{◌≡◌, ◌&&◌, ◌==◌, ◌↔◌, IsTrue, ℕ, List, [], ◌∷◌, if◌then◌else◌};
ghost use Rattle.seq_accounting.specs.Marks.{IsPut, AreGiven, ArePoured, number_of};
ghost use Rattle.seq_accounting.specs.Branch.{marks_of, linked};
ghost use Rattle.seq_accounting.specs.Accounts.{AreLowerBy, are_lower};

use crate::flushed::FlushedNumbers;
use crate::mark::Mark;
use std::marker::Model;

/// A number for each of some families of regions. Contracts see the list of marks. A look-up and a mark put in take time by
/// the bits of a family's name, however many marks there are, and no memory: a mark comes in a box of its own.
pub(crate) struct Marks {
    top: Option<Box<Mark>>,
}

/// By hand, as that of kv_cell's `Octets`: the crates above call it.
impl Drop for Marks {
    fn drop(self) {
        let Marks { top: _ } = self;
    }
}

impl Model for Marks {
    ghost use Rattle.std.specs.Prelude.{List};
    ghost use Rattle.seq_accounting.specs.Marks.{FamilyMark};

    ghost Value = { List FamilyMark };

    ghost use Rattle.seq_accounting.specs.Branch.{linked};

    ghost view = { λ m. linked m.top };
}

impl Marks {
    /// No mark.
    pub(crate) fn new() -> Marks
        ensures { result ≡ [] }
    {
        Marks { top: None }
    }

    /// The marks, which are gone from here.
    pub(crate) fn take(&mut self) -> Marks
        ensures taken { result ≡ self.old }
        ensures left { self.new ≡ [] }
    {
        Marks {
            top: self.top.take(),
        }
    }

    /// The number of a family of a region, 0 where there is none.
    pub(crate) fn get(&self, region: u32, family: &[u8]) -> u64
        ensures { result ≡ number_of self.now region family.now }
    {
        let mut link = &self.top;
        while let Some(mark) = link {
            if let Some(number) = mark.own(region, family) {
                return number;
            }
            link = mark.below(region, family);
        }
        0
    }

    /// Puts a lone mark in. Where there is one of its family and region, that one takes its number.
    pub(crate) fn put(&mut self, mark: Box<Mark>)
        requires { mark.value.below ≡ [] }
        ensures { IsPut self.old self.new mark.value.region mark.value.family mark.value.number }
    {
        match &mut self.top {
            Some(top) => top.put(mark),
            None => self.top = Some(mark),
        }
    }

    /// Puts a lone mark in where there is no number of its family and region.
    fn put_first(&mut self, mark: Box<Mark>)
        requires { mark.value.below ≡ [] }
        ensures { ArePoured self.old self.new (marks_of mark.value) }
    {
        if self.number_of_its(&mark) == 0 {
            self.put(mark);
        }
    }

    /// The number of the mark's family and region here.
    fn number_of_its(&self, mark: &Mark) -> u64
        ensures { result ≡ number_of self.now mark.now.region mark.now.family }
    {
        self.get(mark.region(), mark.family())
    }

    /// Gives each of these families this number in this region.
    pub(crate) fn note(&mut self, marks: Marks, region: u32, number: u64)
        ensures { AreGiven self.old self.new region number marks }
    {
        let Marks { top } = marks;
        note_all(top, self, region, number);
    }

    /// Puts in each of these marks whose family has no number here.
    pub(crate) fn pour(&mut self, marks: Marks)
        ensures { ArePoured self.old self.new marks }
    {
        let Marks { top } = marks;
        pour_all(top, self);
    }

    /// Whether each number is at or below what is flushed of its family.
    pub(crate) fn is_lower(&self, flushed: &FlushedNumbers) -> bool
        ensures lower { IsTrue result ↔ AreLowerBy flushed.now.whole flushed.now.families self.now }
        ensures test { result ≡ are_lower flushed.now.whole flushed.now.families self.now }
    {
        match &self.top {
            Some(mark) => mark.is_lower(flushed),
            None => true,
        }
    }
}

/// Gives the family of each mark that stands here this number in this region.
fn note_all(link: Option<Box<Mark>>, marks: &mut Marks, region: u32, number: u64)
    ensures { AreGiven marks.old marks.new region number (linked link) }
{
    if let Some(mark) = link {
        let mut mark = mark;
        let (left, right) = mark.part();
        mark.renumber(region, number);
        marks.put(mark);
        note_all(left, marks, region, number);
        note_all(right, marks, region, number);
    }
}

/// Puts in each mark that stands here whose family has no number there.
fn pour_all(link: Option<Box<Mark>>, marks: &mut Marks)
    ensures { ArePoured marks.old marks.new (linked link) }
{
    if let Some(mark) = link {
        let mut mark = mark;
        let (left, right) = mark.part();
        marks.put_first(mark);
        pour_all(left, marks);
        pour_all(right, marks);
    }
}
