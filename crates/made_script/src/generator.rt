//! The numbers that calls are made from.

ghost use Rattle.std.specs.Prelude.{◌≡◌, ◌≤◌, ◌^◌, ◌<◌};
ghost use Rattle.made_script.specs.Made.{next_x, first_x};

/// The number after `x`: each is made from the one before, in steps that go through all of 0 to 2^64-1.
pub fn next_number(x: u64) -> u64
    ensures { result ≡ next_x x }
{
    x.wrapping_mul(6_364_136_223_846_793_005)
        .wrapping_add(1_442_695_040_888_963_407)
}

/// The number that a handler starts from. Handlers are counted from 1.
pub fn first_number(start: u64, handler: u32) -> u64
    requires { 1 ≤ handler }
    ensures { result ≡ first_x start handler }
{
    start.wrapping_add(u64::from(handler - 1))
}
