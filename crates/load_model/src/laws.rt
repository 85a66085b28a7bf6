//! A law, as the contract of a function that does nothing when it runs.

ghost use Rattle.load_model.specs.Loaded.{EachPutIsCountedOnce};

/// Where the edits of each region are the puts that a load's script asks of it, each once, their cells are as many as the
/// script's puts.
pub fn each_put_is_counted_once()
    ensures { EachPutIsCountedOnce }
{}
