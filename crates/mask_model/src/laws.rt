//! The laws, each as the contract of a function that does nothing when it runs.

ghost use Rattle.mask_model.specs.Masked.{ReadersSeeTheSame, HasNoLimit};
ghost use Rattle.mask_model.specs.Passing.{ShownInOnePass};

/// Where only what is shown of the cells is kept, as a major compaction keeps it, a reader of any rows sees what it saw.
pub fn compacting_shows_the_same()
    ensures { ReadersSeeTheSame }
{}

/// A reader who asks for at least as many versions as there are cells sees all that is shown.
pub fn no_limit()
    ensures { HasNoLimit }
{}

/// Of cells in order, whether a put is shown is told by the deletes of its family and the cells of its column before it.
pub fn one_pass()
    ensures { ShownInOnePass }
{}
