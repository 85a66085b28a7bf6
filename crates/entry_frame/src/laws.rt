//! What the formats promise of themselves: bytes have one reading.

ghost use Rattle.entry_frame.specs.Laws.{FrameIsOneEntry, TextIsOne, TextIsNotDamaged, DamageIsOne};

/// Two entries with equal frames are equal.
pub fn frame_is_one_entry()
    ensures { FrameIsOneEntry }
{}

/// A log text has one list of entries and one end.
pub fn text_is_one()
    ensures { TextIsOne }
{}

/// No bytes are both a log text and damaged.
pub fn text_is_not_damaged()
    ensures { TextIsNotDamaged }
{}

/// What is damaged is damaged at one place.
pub fn damage_is_one()
    ensures { DamageIsOne }
{}
