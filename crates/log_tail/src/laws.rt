//! The laws, each as the contract of a function that does nothing when it runs.

ghost use Rattle.log_tail.specs.Reads.{ReadingGoesOn};
ghost use Rattle.log_tail.specs.Texts.{TextsHaveAChronicle, FitFilesHaveAChronicle};

/// What a reader is given, and what stands after the position where it stops, is what stood after its position.
pub fn reading_goes_on()
    ensures { ReadingGoesOn }
{}

/// Where each log is a text, the files have a chronicle: so what is said of each chronicle is said of some.
pub fn texts_have_a_chronicle()
    ensures { TextsHaveAChronicle }
{}

/// So have the files of a sound store whose old logs are texts.
pub fn fit_files_have_a_chronicle()
    ensures { FitFilesHaveAChronicle }
{}
