//! Why a call of the folder failed.

use disk_images::Name;
use std::alloc::AllocError;
use std::io::{self, ErrorKind};

/// What failed, with the system's reason.
#[derive(Clone, Copy)]
pub enum Fault {
    /// The call itself.
    Call(io::Error),
    /// Another call that it needed, on this file or, without a name, on the folder.
    Other {
        call: &'static str,
        name: Option<Name>,
        cause: io::Error,
    },
    /// Nothing was called, since an earlier call had failed.
    Refused,
}

impl Fault {
    /// A call on a file that another one needed.
    pub fn on_file(call: &'static str, name: Name, cause: io::Error) -> Fault {
        Fault::Other {
            call,
            name: Some(name),
            cause,
        }
    }

    /// A call on the folder that another one needed.
    pub fn on_folder(call: &'static str, cause: io::Error) -> Fault {
        Fault::Other {
            call,
            name: None,
            cause,
        }
    }

    /// Whether the program ran out of memory.
    pub fn is_memory(&self) -> bool {
        match self {
            Fault::Call(cause) | Fault::Other { cause, .. } => {
                cause.kind() == ErrorKind::OutOfMemory
            }
            Fault::Refused => false,
        }
    }
}

impl From<io::Error> for Fault {
    fn from(cause: io::Error) -> Fault {
        Fault::Call(cause)
    }
}

impl From<AllocError> for Fault {
    fn from(e: AllocError) -> Fault {
        Fault::Call(io::Error::from(e))
    }
}
