//! A mark of a tree.

ghost use Rattle.std.specs.Prelude.{◌≡◌, ◌/◌, ◌%◌, ◌^◌, ◌&&◌, ◌||◌, ◌==◌, ◌≤◌, Bool, true, false, ℕ, leb, List, [], ◌∷◌, ◌++◌, length, IfOk, IsTrue, ◌↔◌, MatchOption, if◌then◌else◌};
ghost use Rattle.seq_accounting.specs.Marks.{FamilyMark, IsPut, is_of, number_of, all_keys};
ghost use Rattle.seq_accounting.specs.Branch.{Branch, IsParted, is_odd, bit_of, marks_of, linked};
ghost use Rattle.seq_accounting.specs.Accounts.{AreLowerBy, are_lower, flushed_by};

use crate::error::NoMemory;
use crate::flushed::FlushedNumbers;
use kv_cell::Octets;
use std::alloc::Global;
use std::marker::Model;

/// The number of a family of a region, in a box of its own, and the marks below it: those of which a bit is 0 stand left,
/// those of which it is 1 right, and each level asks for the next bit. So no two marks are of one family of a region, and a
/// mark stands no deeper than families have bits, however many marks there are.
pub(crate) struct Mark {
    region: u32,
    family: Octets,
    number: u64,
    bit: u64,
    left: Option<Box<Mark>>,
    right: Option<Box<Mark>>,
}

/// By hand, as that of kv_cell's `Octets`: the crates above call it.
impl Drop for Mark {
    fn drop(self) {
        let Mark {
            region: _,
            family: _,
            number: _,
            bit: _,
            left: _,
            right: _,
        } = self;
    }
}

impl Model for Mark {
    ghost use Rattle.std.specs.Prelude.{◌++◌, length};
    ghost use Rattle.std.proofs.Common.{arith, length-append};
    ghost use Rattle.seq_accounting.specs.Branch.{Branch, IsParted};

    ghost Value = { Branch };

    ghost use Rattle.seq_accounting.specs.Branch.{linked};

    ghost view = { λ m. record { region = m.region; family = m.family; number = m.number; below = linked m.left ++ linked m.right } };

    ghost invariant = { λ m. IsParted m.region m.family m.bit (linked m.left) (linked m.right) };

    ghost size = { λ b. length b.below };

    ghost size_decreases = { λ a h. Prim.grind (arith, length-append) };
}

impl Mark {
    /// A mark with nothing below it.
    pub(crate) fn new(
        alloc: Global,
        region: u32,
        family: &[u8],
        number: u64,
    ) -> Result<Box<Mark>, NoMemory>
        ensures { IfOk result (λ mark. mark.value ≡ record { region = region; family = family.now; number = number; below = [] }) }
    {
        let family = Octets::copy_of(alloc, family)?;
        let mark = Mark {
            region,
            family,
            number,
            bit: 0,
            left: None,
            right: None,
        };
        Ok(Box::new(alloc, mark)?)
    }

    /// Its number.
    pub(crate) fn number(&self) -> u64
        ensures { result ≡ self.now.number }
    {
        self.number
    }

    /// The region that it is of.
    pub(crate) fn region(&self) -> u32
        ensures { result ≡ self.now.region }
    {
        self.region
    }

    /// The family that it is of.
    pub(crate) fn family(&self) -> &[u8]
        ensures { result.now ≡ self.now.family }
    {
        self.family.as_slice()
    }

    /// The mark's number, if it is of this family of this region.
    pub(crate) fn own(&self, region: u32, family: &[u8]) -> Option<u64>
        ensures { MatchOption result (is_of self.now.region self.now.family region family.now ≡ false)
            (λ number. number ≡ number_of (marks_of self.now) region family.now) }
    {
        if self.is_of(region, family) {
            return Some(self.number);
        }
        None
    }

    /// Whether the mark is of this family of this region.
    fn is_of(&self, region: u32, family: &[u8]) -> bool
        ensures { result ≡ is_of self.now.region self.now.family region family.now }
    {
        self.region == region && self.family.as_slice() == family
    }

    /// Where a mark of another family or region stands, if there is one: left or right below this one.
    pub(crate) fn below(&self, region: u32, family: &[u8]) -> &Option<Box<Mark>>
        requires { is_of self.now.region self.now.family region family.now ≡ false }
        ensures number { number_of (linked result.now) region family.now ≡ number_of (marks_of self.now) region family.now }
        ensures fewer { length (linked result.now) ≤ length self.now.below }
    {
        if bit_at(region, family, self.bit) {
            &self.right
        } else {
            &self.left
        }
    }

    /// Whether the other mark is of the same family of the same region.
    fn is_same(&self, other: &Mark) -> bool
        ensures { result ≡ is_of self.now.region self.now.family other.now.region other.now.family }
    {
        self.region == other.region && self.family.as_slice() == other.family.as_slice()
    }

    /// Whether it stands right below a mark that parts by this bit.
    fn goes_right(&self, bit: u64) -> bool
        ensures { result ≡ bit_of self.now.region self.now.family bit }
    {
        bit_at(self.region, self.family.as_slice(), bit)
    }

    /// Puts a lone mark below this one, at its place. Where there is one of its family and region, that one takes its number.
    pub(crate) fn put(&mut self, mark: Box<Mark>)
        requires { mark.value.below ≡ [] }
        ensures { IsPut (marks_of self.old) (marks_of self.new) mark.value.region mark.value.family mark.value.number }
    {
        if self.is_same(&mark) {
            let newer = mark.number();
            self.number = newer;
            return;
        }
        if mark.goes_right(self.bit) {
            match &mut self.right {
                Some(below) => below.put(mark),
                None => self.right = Some(under(mark, self.bit)),
            }
        } else {
            match &mut self.left {
                Some(below) => below.put(mark),
                None => self.left = Some(under(mark, self.bit)),
            }
        }
    }

    /// Whether the number of this mark and of each one below it is at or below what is flushed of its family.
    #[cycle(lower)]
    pub(crate) fn is_lower(&self, flushed: &FlushedNumbers) -> bool
        ensures lower { IsTrue result ↔ AreLowerBy flushed.now.whole flushed.now.families (marks_of self.now) }
        ensures test { result ≡ are_lower flushed.now.whole flushed.now.families (marks_of self.now) }
    {
        if self.is_low(flushed) {
            if is_lower_below(&self.left, flushed) {
                is_lower_below(&self.right, flushed)
            } else {
                false
            }
        } else {
            false
        }
    }

    /// Whether its own number is at or below what is flushed of its family.
    fn is_low(&self, flushed: &FlushedNumbers) -> bool
        ensures { result ≡ leb self.now.number (flushed_by flushed.now.whole flushed.now.families self.now.region self.now.family) }
    {
        self.number <= flushed.of(self.region, self.family.as_slice())
    }

    /// Parts it from those below it: what stood left and right.
    pub(crate) fn part(&mut self) -> (Option<Box<Mark>>, Option<Box<Mark>>)
        ensures alone { self.new ≡ record self.old { below = [] } }
        ensures below { linked result.0 ++ linked result.1 ≡ self.old.below }
    {
        let left = self.left.take();
        let right = self.right.take();
        (left, right)
    }

    /// Gives it another region and number.
    pub(crate) fn renumber(&mut self, region: u32, number: u64)
        requires { self.old.below ≡ [] }
        ensures { self.new ≡ record { region = region; family = self.old.family; number = number; below = [] } }
    {
        self.region = region;
        self.number = number;
    }
}

/// The same of the mark that stands here, if there is one.
#[cycle(lower)]
fn is_lower_below(link: &Option<Box<Mark>>, flushed: &FlushedNumbers) -> bool
    ensures lower { IsTrue result ↔ AreLowerBy flushed.now.whole flushed.now.families (linked link.now) }
    ensures test { result ≡ are_lower flushed.now.whole flushed.now.families (linked link.now) }
{
    match link {
        Some(mark) => mark.is_lower(flushed),
        None => true,
    }
}

/// The bit by which this family of this region goes left or right: the bits of the family, its last byte first, as names
/// that are counted differ there, and then those of the region.
#[tactic(auto, unfolding(crate::specs::Branch::bit_of))]
fn bit_at(region: u32, family: &[u8], bit: u64) -> bool
    ensures { result ≡ bit_of region family.now bit }
{
    let place = bit / 8;
    if place < family.len() as u64 {
        has_bit(family[family.len() - 1 - place as usize] as u32, bit)
    } else {
        has_bit(region, bit)
    }
}

/// Whether this bit of the number's last byte is 1; eight bits on it is the same one again.
fn has_bit(number: u32, bit: u64) -> bool
    ensures { result ≡ is_odd (number / 2 ^ (bit % 8)) }
{
    (number >> (bit % 8)) % 2 == 1
}

/// The lone mark, to stand below one that parts by this bit: it parts by the next one.
fn under(mark: Box<Mark>, bit: u64) -> Box<Mark>
    requires { mark.value.below ≡ [] }
    ensures { result.value ≡ mark.value }
{
    let mut mark = mark;
    mark.bit = bit.wrapping_add(1);
    mark
}
