//! Why a command ended as it did, on standard error.

use cause_text::{Cause, Meant, Place, meant_by};
use load_run::Status;
use std::io;
use std::process::ExitCode;
use std::rt::Env;

/// The store's folder.
const FOLDER: &str = "hwal-store";

/// How a command ended, and what the outside said of it.
#[derive(Clone, Copy)]
pub struct Ended {
    pub status: Status,
    /// Why a read of the script failed.
    pub input: Option<io::Error>,
    /// Why a write of the output failed.
    pub output: Option<io::Error>,
    /// Whether the folder wasn't there.
    pub was_absent: bool,
}

impl Ended {
    /// Of a command that was refused before it looked at anything.
    pub fn before_work(status: Status, output: Option<io::Error>) -> Ended {
        Ended {
            status,
            input: None,
            output,
            was_absent: false,
        }
    }

    /// Says what there is to be said, and gives the exit status. Which call of the disk failed the folder has said. Where standard
    /// error takes nothing, nobody is told.
    pub fn tell<R: Eprint + Env + AllocGlobal>(self, rt: &R, words: &[&str]) -> ExitCode {
        if let Some(cause) = self.input {
            let _ = eprintln!(rt; "hwal: read standard input: {cause}");
        }
        if let Some(cause) = self.output {
            let _ = eprintln!(rt; "hwal: write standard output: {cause}");
        }
        let meant = meant_by(words);
        let place = Place::of(rt, FOLDER);
        if self.was_absent && !begins_store(meant) {
            let _ = eprintln!(rt; "hwal: there was no folder {place}: it reads as an empty store");
        }
        if let Some(cause) = Cause::of(meant, self.status, &place) {
            let _ = eprintln!(rt; "hwal: {cause}");
        }
        ExitCode::from(self.status.number())
    }
}

/// Whether the command wants an empty store.
fn begins_store(meant: Meant) -> bool {
    meant == Meant::Log || meant == Meant::Load
}
