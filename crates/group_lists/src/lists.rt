//! One to four values, one for each group.

ghost use Rattle.std.specs.Prelude.{◌≡◌, ◌≤◌};
ghost use Rattle.group_lists.specs.Lists.{count_of};

/// A value for each group, the first one's first, and as many as stand before the first that is left out. What stands after it is of no region's
/// group.
#[derive(Drop)]
pub struct GroupList<T> {
    pub first: T,
    pub second: Option<T>,
    pub third: Option<T>,
    pub fourth: Option<T>,
}

impl<T> GroupList<T> {
    /// These values.
    pub fn of(first: T, second: Option<T>, third: Option<T>, fourth: Option<T>) -> GroupList<T>
        ensures { result ≡ (record { first = first; second = second; third = third; fourth = fourth }) }
    {
        GroupList {
            first,
            second,
            third,
            fourth,
        }
    }

    /// How many groups there are, from 1 to 4.
    pub fn count(&self) -> u32
        ensures is { result ≡ count_of self.now }
        ensures some { (1 ≤ result) × (result ≤ 4) }
    {
        match &self.second {
            None => 1,
            Some(_) => match &self.third {
                None => 2,
                Some(_) => match &self.fourth {
                    None => 3,
                    Some(_) => 4,
                },
            },
        }
    }
}
