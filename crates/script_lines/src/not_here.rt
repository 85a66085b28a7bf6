//! What a command does not take: it is refused after all other checks of its line.

ghost use Rattle.std.specs.Prelude.{◌≡◌, codes};
ghost use Rattle.kv_cell.specs.Kind.{code_of as kind_code};
ghost use Rattle.script_model.specs.Fields.{code_of, get_here_fault, here_fault, is, kind_here_fault, mode_here_fault, one_here_fault};
ghost use Rattle.script_calls.specs.Calls.{is_sync};
ghost use Rattle.script_lines.specs.Why.{Tells};

use crate::faults::{LineError, ScriptWhy};
use kv_cell::{Durability, Kind};
use script_model::Command;

/// `log` takes no call but a put, no name of a table, and no tags.
#[tactic(auto, unfolding(script_model::specs::Fields::here_fault))]
pub fn here(command: Command) -> Result<(), LineError>
    ensures exact { Tells result (here_fault command) }
{
    match command {
        Command::Log => Err(LineError::Wrong(ScriptWhy::NotHere)),
        Command::Run | Command::Groups => Ok(()),
    }
}

/// Gets are for a run on one log.
#[tactic(auto, unfolding(script_model::specs::Fields::get_here_fault))]
pub fn get_here(command: Command) -> Result<(), LineError>
    ensures exact { Tells result (get_here_fault command) }
{
    match command {
        Command::Log | Command::Groups => Err(LineError::Wrong(ScriptWhy::NotHere)),
        Command::Run => Ok(()),
    }
}

/// `log` takes one region and one handler.
#[tactic(auto, using(std::proofs::lemmas::Bool::Decides::nat_tests), unfolding(script_model::specs::Fields::one_here_fault))]
pub fn one_here(command: Command, count: u64) -> Result<(), LineError>
    ensures exact { Tells result (one_here_fault command count) }
{
    match command {
        Command::Log if count != 1 => Err(LineError::Wrong(ScriptWhy::NotHere)),
        _ => Ok(()),
    }
}

/// `log` takes puts that wait.
#[tactic(auto, unfolding(script_model::specs::Fields::mode_here_fault))]
pub fn mode_here(command: Command, durability: Durability, word: &[u8]) -> Result<(), LineError>
    requires { is_sync durability ≡ is word.now (codes "sync") }
    ensures exact { Tells result (mode_here_fault command word.now) }
{
    match command {
        Command::Log => match durability {
            Durability::Sync => Ok(()),
            Durability::Async => Err(LineError::Wrong(ScriptWhy::NotHere)),
        },
        Command::Run | Command::Groups => Ok(()),
    }
}

/// `log` takes cells that put.
#[tactic(auto, using(std::proofs::lemmas::Bool::Decides::nat_tests), unfolding(script_model::specs::Fields::kind_here_fault))]
pub fn kind_here(command: Command, kind: Kind, word: &[u8]) -> Result<(), LineError>
    requires { kind_code kind ≡ code_of word.now }
    ensures exact { Tells result (kind_here_fault command word.now) }
{
    match command {
        Command::Log => match kind {
            Kind::Put => Ok(()),
            _ => Err(LineError::Wrong(ScriptWhy::NotHere)),
        },
        Command::Run | Command::Groups => Ok(()),
    }
}
