//! Names of files.

ghost use Rattle.std.specs.Prelude.{◌≡◌};

pub use log_model::{Name, NameKind};
use std::marker::Model;

/// Names, seen as a list.
#[derive(Drop)]
pub struct NameList {
    names: Vec<Name>,
}

impl Model for NameList {
    ghost use Rattle.std.specs.Prelude.{List};
    ghost use Rattle.log_model.specs.declared.name.Name.{Name};

    ghost Value = { List Name };

    ghost view = { λ s. s.names.items };
}

impl NameList {
    pub fn of(names: Vec<Name>) -> NameList
        ensures { result ≡ names.items }
    {
        NameList { names }
    }

    pub fn as_slice(&self) -> &[Name]
        ensures { result.now ≡ self.now }
    {
        self.names.as_slice()
    }
}
