//! What a ring asks of its items.

/// An item of one region. Some items carry a number that was drawn for them.
pub trait OfRegion {
    ghost use Rattle.std.specs.Prelude.{ℕ, ◌≡◌, ◌++◌, [], List, Option};

    /// The region that the item is of, from 1 on.
    ghost place: { Self → ℕ };

    /// The number that was drawn for the item, if there is one.
    ghost number: { Self → Option ℕ };

    /// What has to hold of an item by itself.
    ghost is_whole: { Self → Type 0 };

    /// Which lists of items of one region are in order, where the ring has these numbers before the first drawn ones.
    ghost in_order: { List ℕ → List Self → Type 0 };

    /// The region that the item is of.
    fn region(&self) -> u32
        ensures { result ≡ place self.now };

    /// The number that was drawn for the item, or None.
    fn drawn(&self) -> Option<u64>
        ensures { result ≡ number self.now };

    /// No items are in order.
    ghost order_empty: { (lasts : List ℕ) → in_order lasts [] };

    /// The beginning of a list in order is in order.
    ghost order_front: { (lasts : List ℕ) (xs ys : List Self) → in_order lasts (xs ++ ys) → in_order lasts xs };
}
