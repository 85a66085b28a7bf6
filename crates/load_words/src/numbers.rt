//! The numbers of the options, once the words were taken.

ghost use Rattle.std.specs.Prelude.{◌≡◌, ◌≤◌, codes};
ghost use Rattle.load_words.specs.App.{IsLoad, IsNumberOf};

use clap::ArgMatches;

/// The value of `--start`.
pub fn start_of(matches: &ArgMatches<'_>) -> u64
    requires { IsLoad matches.now }
    ensures { IsNumberOf matches.now (codes "start") result }
{
    let Some(number) = matches.get_one::<u64>("start") else {
        unreachable!()
    };
    number
}

/// The value of `--handlers`.
pub fn handlers_of(matches: &ArgMatches<'_>) -> u32
    requires { IsLoad matches.now }
    ensures value { IsNumberOf matches.now (codes "handlers") result }
    ensures range { (1 ≤ result) × (result ≤ 16) }
{
    let Some(number) = matches.get_one::<u32>("handlers") else {
        unreachable!()
    };
    number
}

/// The value of `--regions`.
pub fn regions_of(matches: &ArgMatches<'_>) -> u32
    requires { IsLoad matches.now }
    ensures value { IsNumberOf matches.now (codes "regions") result }
    ensures range { (1 ≤ result) × (result ≤ 64) }
{
    let Some(number) = matches.get_one::<u32>("regions") else {
        unreachable!()
    };
    number
}

/// The value of `--count`.
pub fn count_of(matches: &ArgMatches<'_>) -> u32
    requires { IsLoad matches.now }
    ensures value { IsNumberOf matches.now (codes "count") result }
    ensures range { (1 ≤ result) × (result ≤ 10000) }
{
    let Some(number) = matches.get_one::<u32>("count") else {
        unreachable!()
    };
    number
}
