//! The names of files.

ghost use Rattle.std.specs.Prelude.{◌≡◌, ◌+◌, ◌≤◌, ◌∷◌, ◌++◌, OnOk, decimal, length, take, vec_len};
ghost use Rattle.script_model.specs.Outputs.{name_text};

use crate::short_line::Line;
use crate::words::append;
use kv_cell::NoMemory;
use log_model::{Name, NameKind};

fn push_pair(line: &mut Line, word: &str, n: u64, m: u64)
    requires { length line.old + length word.now + 41 ≤ 160 }
    ensures text { line.new ≡ line.old ++ (word.now ++ (decimal n ++ (45 ∷ decimal m))) }
    ensures len { length line.new ≤ length line.old + length word.now + 41 }
{
    line.push_numbered(word, n);
    line.push_numbered("-", m)
}

/// Adds a name, as `log-1` or `store-1-1`.
#[tactic(auto, unfolding(script_model::specs::Outputs::name_text))]
pub(crate) fn push_name(line: &mut Line, name: &Name)
    requires { length line.old + 47 ≤ 160 }
    ensures text { line.new ≡ line.old ++ name_text name.now }
    ensures len { length line.new ≤ length line.old + 47 }
{
    match name.kind {
        NameKind::Log => line.push_numbered("log-", name.number),
        NameKind::Old => line.push_numbered("old-", name.number),
        NameKind::Store => push_pair(line, "store-", name.region as u64, name.number),
        NameKind::Edits => push_pair(line, "edits-", name.region as u64, name.number),
    }
}

/// Appends a name. After a refusal the vector begins with what it had.
pub fn append_name(out: &mut Vec<u8>, name: &Name) -> Result<(), NoMemory>
    ensures ok { OnOk result (out.new.items ≡ out.old.items ++ name_text name.now) }
    ensures kept { take (vec_len out.old) out.new.items ≡ out.old.items }
{
    let mut text = Line::new();
    push_name(&mut text, name);
    append(out, text.as_slice())
}
