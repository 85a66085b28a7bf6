//! Laws of the definitions. Each of these functions does nothing: its contract is the law.

ghost use Rattle.log_model.specs.Damage.{SoundIsUndamaged};

/// Of sound files, each of fewer than 2^64 bytes, nothing is damaged and no two entries disagree.
pub fn sound_is_undamaged()
    ensures { SoundIsUndamaged }
{}
