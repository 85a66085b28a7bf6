//! The segments of the base and of the lines taken in, in falling sizes, and the segments of the lines that follow.

ghost use Rattle.std.specs.Prelude.{◌≡◌, ◌+◌, ◌-◌, ◌≤◌, [], ◌∷◌, ◌++◌, length, map, true, IfOk, OnOk, OnErr, IsSome};
ghost use Rattle.std.specs.Arc.{arc_value};
ghost use Rattle.std.specs.VecDeque.{deque_capacity, deque_len};
ghost use Rattle.cell_model.specs.Order.{Content};
ghost use Rattle.cell_model.specs.Join.{joined};
ghost use Rattle.region_state.specs.Layers.{all_of, TakesIn};

use kv_cell::NoMemory;
use mem_segments::{Base, Segment, SegmentList};
use std::alloc::Global;
use std::collections::VecDeque;
use std::marker::Model;
use std::sync::Arc;

type Part = Arc<Segment, Global>;

/// Contracts see the content that is merged, and the contents that wait. Of these the first may be shared already.
#[derive(Drop)]
pub(crate) struct Layers {
    parts: SegmentList,
    next: Option<Part>,
    waiting: VecDeque<Segment>,
}

impl Model for Layers {
    ghost use Rattle.std.specs.Prelude.{◌-◌, map};
    ghost use Rattle.std.specs.Arc.{arc_value};
    ghost use Rattle.std.specs.VecDeque.{deque_capacity, deque_len};
    ghost use Rattle.cell_model.specs.Join.{joined};
    ghost use Rattle.region_state.specs.Layers.{Layered, coded_layered, all_of};

    ghost Value = { Layered };

    ghost coded = { coded_layered };

    ghost view = { λ l. record {
      merged = joined l.parts;
      waiting = all_of arc_value l.next l.waiting.items;
      room = deque_capacity l.waiting - deque_len l.waiting;
    } };
}

impl Layers {
    /// The base alone.
    pub(crate) fn new(alloc: Global, base: &Base) -> Result<Layers, NoMemory>
        ensures { IfOk result (λ layers. (layers.merged ≡ base.now.content) × (layers.waiting ≡ [])) }
    {
        Ok(Layers {
            parts: layered(alloc, &SegmentList::new(alloc), &base.cells)?,
            next: None,
            waiting: VecDeque::new(alloc),
        })
    }

    /// Makes room for one segment.
    pub(crate) fn reserve(&mut self) -> Result<(), NoMemory>
        ensures same { (self.new.merged ≡ self.old.merged) × (self.new.waiting ≡ self.old.waiting) }
        ensures room { self.old.room ≤ self.new.room }
        ensures ok { OnOk result (1 ≤ self.new.room) }
    {
        Ok(self.waiting.reserve(1)?)
    }

    /// A segment that waits after the others. It takes no memory.
    pub(crate) fn push(&mut self, segment: Segment)
        requires { 1 ≤ self.old.room }
        ensures { self.new ≡ record { merged = self.old.merged; waiting = self.old.waiting ++ segment ∷ []; room = self.old.room - 1 } }
    {
        self.waiting.push_back_reserved(segment);
    }

    /// How many wait.
    pub(crate) fn waiting(&self) -> usize
        ensures { result ≡ length self.now.waiting }
    {
        self.waiting.len() + self.next.is_some() as usize
    }

    /// Takes the first that waits in, or drops it. Where memory is refused nothing changes.
    pub(crate) fn take_in(&mut self, alloc: Global, done: bool) -> Result<(), NoMemory>
        requires { 1 ≤ length self.old.waiting }
        ensures ok { OnOk result (TakesIn done self.old self.new) }
        ensures err { OnErr result ((self.new.merged ≡ self.old.merged) × (self.new.waiting ≡ self.old.waiting)) }
        ensures room { self.old.room ≤ self.new.room }
    {
        if !done {
            drop_first(&mut self.next, &mut self.waiting);
            return Ok(());
        }
        share_first(alloc, &mut self.next, &mut self.waiting)?;
        let Some(first) = &self.next else {
            unreachable!();
        };
        self.parts = layered(alloc, &self.parts, first)?;
        self.next = None;
        Ok(())
    }

    /// The segments, shared.
    pub(crate) fn share(&self, alloc: Global) -> Result<SegmentList, NoMemory>
        ensures { IfOk result (λ parts. joined parts ≡ self.now.merged) }
    {
        self.parts.share(alloc)
    }
}

/// These segments and a newer one, which adds nothing where it has no cell.
fn layered(alloc: Global, parts: &SegmentList, newer: &Part) -> Result<SegmentList, NoMemory>
    ensures { IfOk result (λ all. joined all ≡ joined (joined parts.now ∷ arc_value newer.now ∷ [])) }
{
    if newer.len() == 0 {
        let same = parts.share(alloc)?;
        return Ok(same);
    }
    let all = parts.with_newer(alloc, Arc::try_clone(newer)?)?;
    Ok(all)
}

/// Makes the first that waits a shared one.
fn share_first(
    alloc: Global,
    next: &mut Option<Part>,
    waiting: &mut VecDeque<Segment>,
) -> Result<(), NoMemory>
    requires { 1 ≤ length (all_of arc_value next.old waiting.old.items) }
    ensures same { all_of arc_value next.new waiting.new.items ≡ all_of arc_value next.old waiting.old.items }
    ensures room { deque_capacity waiting.old - deque_len waiting.old ≤ deque_capacity waiting.new - deque_len waiting.new }
    ensures ok { OnOk result (IsSome next.new) }
{
    if next.is_some() {
        return Ok(());
    }
    match Arc::new(alloc, waiting.pop_front().unwrap()) {
        Ok(first) => {
            *next = Some(first);
            Ok(())
        }
        Err(refused) => {
            waiting.push_front_reserved(refused.value);
            Err(NoMemory)
        }
    }
}

/// Lets the first that waits go.
fn drop_first(next: &mut Option<Part>, waiting: &mut VecDeque<Segment>)
    requires { 1 ≤ length (all_of arc_value next.old waiting.old.items) }
    ensures rest { (first : Content) × (all_of arc_value next.old waiting.old.items ≡ first ∷ all_of arc_value next.new waiting.new.items) }
    ensures room { deque_capacity waiting.old - deque_len waiting.old ≤ deque_capacity waiting.new - deque_len waiting.new }
{
    if next.is_some() {
        *next = None;
    } else {
        waiting.pop_front();
    }
}
