// A system as a crash leaves it.
ghost use Rattle.std.specs.Prelude.{◌≡◌, IfOk};
ghost use Rattle.system_fakes.specs.Table.{held_in};
ghost use Rattle.system_fakes.specs.Fair.{IsStart};
ghost use Rattle.system_fakes.specs.Views.{state_of, history_view};

use crate::crash::played;
use crate::history::History;
use crate::table::Table;
use std::alloc::AllocError;

impl History {
    /// The files that a crash now may leave, with no call yet.
    pub fn image(&self, choice: u64) -> Result<History, AllocError>
        ensures { IfOk result (λ image. (history_view self.now).now (history_view image).folder (history_view image).bytes) }
    {
        let image = played(&self.first, &self.ops, choice)?;
        History::quiet(image)
    }

    /// A history that begins with these files.
    fn quiet(image: Table) -> Result<History, AllocError>
        requires { IsStart (held_in image) }
        ensures { IfOk result (λ history. (state_of history).held ≡ held_in image) }
    {
        let alloc = image.alloc;
        Ok(History {
            first: image.copy()?,
            table: image,
            ops: Vec::new(alloc),
        })
    }
}
