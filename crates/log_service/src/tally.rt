//! What is counted of the puts of one pass into one region.

/// How many sync requests were pushed, and of which region and up to which number the last one was. The count stands still at 2^64 - 1.
/// Only `LogService::ask` counts.
#[derive(Drop)]
pub struct Asked {
    pub(crate) requests: u64,
    pub(crate) region: u32,
    pub(crate) number: u64,
}

/// How often the ring was found full for an entry, how often the fault word was looked at for a put, and whether the last of these looks
/// found it set. The counts stand still at 2^64 - 1. Only `LogService::append` and `LogService::watch` count.
#[derive(Drop)]
pub struct Watch {
    pub(crate) full: u64,
    pub(crate) looks: u64,
    pub(crate) broken: bool,
}

/// Both. Nobody can copy a count, set one or take one back, and only who has a service's seats makes one (`LogSeats::put_tally`), as a pass is
/// made. So what a put has asked and seen is said by what it did. No wrong body of a put shows this, since none that counts elsewhere can be
/// written.
#[derive(Drop)]
pub struct PutTally {
    pub asked: Asked,
    pub watch: Watch,
}

impl PutTally {
    ghost use Rattle.std.specs.Prelude.{◌≡◌};
    ghost use Rattle.log_service.specs.Tallies.{no_tally};

    /// Nothing yet.
    pub(crate) fn none() -> PutTally
        ensures { result ≡ no_tally }
    {
        PutTally {
            asked: Asked {
                requests: 0,
                region: 0,
                number: 0,
            },
            watch: Watch {
                full: 0,
                looks: 0,
                broken: false,
            },
        }
    }
}
