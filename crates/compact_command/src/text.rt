//! What `compact` prints. It takes no memory, so that what was done can always be told.

ghost use Rattle.std.specs.Prelude.{◌≡◌, ◌+◌, ◌≤◌, ◌∷◌, ◌++◌, decimal, length};
ghost use Rattle.script_model.specs.Outputs.{end_line};
ghost use Rattle.compact_command.specs.Lines.{compacted_line, nothing_line, compaction_text};

use crate::compaction::Compaction;
use arrayvec::ArrayString;
use itoa::Buffer;
use store_compact::Compacted;

/// The line of what came of a compaction, and the last line.
pub(crate) fn text_of(region: u32, compaction: Compaction) -> ArrayString<128>
    ensures { result.bytes ≡ compaction_text region compaction }
{
    match compaction {
        Compaction::Made { counts } => made_text(region, counts),
        Compaction::Nothing { files } => nothing_text(files),
    }
}

#[tactic(auto, using(crate::proofs::Printing::made_line))]
fn made_text(region: u32, counts: Compacted) -> ArrayString<128>
    ensures { result.bytes ≡ compacted_line region counts ++ end_line 0 }
{
    let mut text = ArrayString::new();
    push_numbered(&mut text, "compacted ", region as u64);
    push_numbered(&mut text, " ", counts.before);
    push_numbered(&mut text, " ", counts.after);
    push_end(&mut text);
    text
}

#[tactic(auto, using(crate::proofs::Printing::nothing_told))]
fn nothing_text(files: u64) -> ArrayString<128>
    ensures { result.bytes ≡ nothing_line files ++ end_line 0 }
{
    let mut text = ArrayString::new();
    push_numbered(&mut text, "compact nothing ", files);
    push_end(&mut text);
    text
}

/// Ends the line, and adds the last one.
#[tactic(auto, unfolding(script_model::specs::Report::end_line))]
fn push_end(text: &mut ArrayString<128>)
    requires { length text.old.bytes + 26 ≤ 128 }
    ensures { text.new.bytes ≡ text.old.bytes ++ (10 ∷ end_line 0) }
{
    push_numbered(text, "\nend ", 0);
    text.push_str("\n")
}

/// Adds some words and a number.
fn push_numbered(text: &mut ArrayString<128>, words: &str, n: u64)
    requires { length text.old.bytes + length words.now + 20 ≤ 128 }
    ensures text { text.new.bytes ≡ text.old.bytes ++ (words.now ++ decimal n) }
    ensures len { length text.new.bytes ≤ length text.old.bytes + length words.now + 20 }
{
    text.push_str(words);
    text.push_str(Buffer::new().format(n))
}
