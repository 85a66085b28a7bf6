//! A law of damage. Its function does nothing: its contract is the law.

ghost use Rattle.recover_command.specs.Recovered.{DamageIsOne};

/// What shows first that files aren't sound is one damage.
pub fn damage_is_told_once()
    ensures { DamageIsOne }
{}
