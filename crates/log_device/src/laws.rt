//! A law, as the contract of a function that does nothing when it runs.

ghost use Rattle.log_device.specs.Laws.{BorneNamesAreSound};

/// Files with a device's names are sound where they are fit, those that were found are sound, and no number passes the
/// limit of names.
pub fn borne_names_are_sound()
    ensures { BorneNamesAreSound }
{}
