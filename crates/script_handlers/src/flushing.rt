//! The family that a flush names.

ghost use Rattle.std.specs.Prelude.{◌≡◌, ◌≤◌, IfSome, length};
ghost use Rattle.std.specs.Option.{option_map};
ghost use Rattle.script_model.specs.Calls.{IsFamily};

use kv_cell::Octets;

/// The family's bytes, lent.
pub fn lent(family: &Option<Octets>) -> Option<&[u8]>
    requires { IsFamily family.now }
    ensures same { option_map (λ f. f.now) result ≡ family.now }
    ensures length { IfSome result (λ f. (1 ≤ length f.now) × (length f.now ≤ 127)) }
{
    match family {
        Some(family) => Some(family.as_slice()),
        None => None,
    }
}
