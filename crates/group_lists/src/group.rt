//! Which group a region is of.

ghost use Rattle.std.specs.Prelude.{◌≡◌, ◌≤◌};
ghost use Rattle.groups_model.specs.Groups.{group_of};

/// Of so many groups the one that a region is of: regions 1, 2, .. are of groups 1, 2, .. in turn.
pub fn group_in(groups: u32, region: u32) -> u32
    requires region { 1 ≤ region }
    requires groups { 1 ≤ groups }
    ensures is { result ≡ group_of groups region }
    ensures there { (1 ≤ result) × (result ≤ groups) }
{
    (region - 1) % groups + 1
}
