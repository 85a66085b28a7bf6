//! What a pass knows of the ring.
use std::collections::LinkedList;

/// What a pass knows. No value of it is made.
///
/// `region` is the region that it pushes for, or 0, and `pushed` is all that was pushed of it. Where it `pops`, `popped` is all that
/// was popped, and `made` regions have a pass. `lasts` has the number before each region's first drawn one, region 1 first.
pub struct Knows<T> {
    pub region: u64,
    pub pops: bool,
    pub made: u64,
    pub lasts: LinkedList<u64>,
    pub pushed: LinkedList<T>,
    pub popped: LinkedList<T>,
}
