//! Versions of a region, handed to readers that never wait: a view is a version that was shown, and never one before the
//! last one viewed or learnt. What was shown of a region is kept as the beginnings of one history of its completed lines.
#![tactic(auto)]

mod book;
mod front;
mod history;
mod made;
mod naming;
mod page;
mod rule;
mod shower;
mod sight;
mod slot;
mod viewer;

pub use book::{Law, NewHistory};
pub use front::Front;
pub use history::History;
pub use made::versions;
pub use naming::VersionsNaming;
pub use page::Page;
pub use rule::{Monotone, Seen};
pub use shower::{Shower, Told, VersionParts};
pub use sight::Sight;
pub use slot::{Showing, State};
pub use viewer::{Viewer, ViewerList};
