//! A scan that is read a page at a time.

ghost use Rattle.std.specs.Prelude.{◌≡◌, ◌↔◌, ◌≤◌, ℕ, [], take, drop, IsTrue, IfOk, OnOk, OnErr};
ghost use Rattle.std.specs.Arc.{arc_value};
ghost use Rattle.region_state.specs.Versions.{seen_in};

use crate::version::Version;
use kv_cell::{NoMemory, Octets};
use mem_segments::{Cursor, Page};
use std::alloc::Global;
use std::marker::Model;
use std::sync::Arc;

/// A scan of one version within a range of rows. It holds the version for as long as it lives, and no one waits for it.
/// Contracts see the numbered cells that are left, in order.
pub struct Scanner {
    version: Arc<Version, Global>,
    from: Octets,
    to: Octets,
    cursor: Cursor,
}

/// By hand, as that of kv_cell's `Octets`: the crates above call it.
impl Drop for Scanner {
    fn drop(self) {
        let Scanner {
            version: _,
            from: _,
            to: _,
            cursor: _,
        } = self;
    }
}

impl Model for Scanner {
    ghost use Rattle.std.specs.Prelude.{List};
    ghost use Rattle.std.specs.Arc.{arc_value};
    ghost use Rattle.cell_model.specs.Order.{NumberedCell};
    ghost use Rattle.region_state.specs.Versions.{seen_in};
    ghost use Rattle.mem_segments.specs.Walk.{to_come};

    ghost Value = { List NumberedCell };

    ghost view = { λ s. to_come s.cursor (seen_in 0 (arc_value s.version) s.from s.to) };
}

impl Scanner {
    /// The scan of a version's cells whose rows lie at or above `from` and, if `to` isn't empty, below `to`: what a reader
    /// sees at the version's point. It copies the bounds alone.
    pub fn of_version(
        alloc: Global,
        version: Arc<Version, Global>,
        from: &[u8],
        to: &[u8],
    ) -> Result<Scanner, NoMemory>
        ensures { IfOk result (λ scanner. (region : ℕ) → scanner ≡ seen_in region (arc_value version) from.now to.now) }
    {
        let from = Octets::copy_of(alloc, from)?;
        let to = Octets::copy_of(alloc, to)?;
        Ok(Scanner {
            version,
            from,
            to,
            cursor: Cursor::new(),
        })
    }

    /// The next `count` cells of the scan, or all that are left where there are fewer; `done` says that none is left
    /// after them. So the pages joined, up to one that is done, are the whole scan. Out of memory the scanner
    /// stays as it is. A page costs its cells, and a step down each of the version's segments.
    pub fn next(&mut self, alloc: Global, count: u32) -> Result<Page, NoMemory>
        requires { 1 ≤ count }
        ensures cells { IfOk result (λ page. page.cells ≡ take count self.old) }
        ensures rest { OnOk result (self.new ≡ drop count self.old) }
        ensures done { IfOk result (λ page. IsTrue page.done ↔ (self.new ≡ [])) }
        ensures err { OnErr result (self.new ≡ self.old) }
    {
        let page = self.version.scan_page(
            alloc,
            &mut self.cursor,
            self.from.as_slice(),
            self.to.as_slice(),
            count,
        )?;
        Ok(page)
    }
}
