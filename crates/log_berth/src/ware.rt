//! What a berth asks of its ware.

/// What a berth keeps.
pub trait Ware {
    ghost use Rattle.std.specs.Prelude.{ℕ, Bool, List, slice_index, ◌≡◌, ◌-◌, ◌<◌};

    /// The durable number of each region, region 1 first, and 0 past the end.
    ghost numbers: { Self → List ℕ };

    /// Whether the ware is broken.
    ghost is_broken: { Self → Bool };

    /// The durable number of a region, from 1 on.
    fn durable(&self, region: u32) -> u64
        requires { 0 < region }
        ensures { result ≡ slice_index (numbers self.now) (region - 1) };

    /// Whether the ware is broken.
    fn broken(&self) -> bool
        ensures { result ≡ is_broken self.now };
}
