//! The text of the lines that refuse. It takes no memory, so that being out of memory can be told.

ghost use Rattle.std.specs.Prelude.{◌≡◌, ◌+◌, ◌≤◌, ◌++◌, length};
ghost use Rattle.script_model.specs.Outputs.{refused_damaged, refused_disagree, refused_script, refused_store};
ghost use Rattle.script_model.specs.Why.{why_of};
ghost use Rattle.report_text.specs.Refusals.{refusal_text, refused_position};

use crate::names::push_name;
use crate::refusal::Refusal;
use crate::short_line::Line;
use log_model::Name;
use script_model::ScriptWhy;

fn line_of(text: &str) -> Line
    requires { length text.now ≤ 160 }
    ensures { result ≡ text.now }
{
    let mut line = Line::new();
    line.push(text);
    line
}

#[tactic(auto, unfolding(script_model::specs::Outputs::refused_script))]
fn script_line(number: u64, why: ScriptWhy) -> Line
    ensures { result ≡ refused_script number (why_of why) }
{
    let mut line = line_of("refused script ");
    line.push_number(number);
    line.push(" ");
    line.push(why.name());
    line.push("\n");
    line
}

#[tactic(auto, unfolding(script_model::specs::Outputs::refused_damaged))]
fn damaged_line(name: &Name, at: u64) -> Line
    ensures { result ≡ refused_damaged name.now at }
{
    let mut line = line_of("refused damaged ");
    push_name(&mut line, name);
    line.push(" ");
    line.push_number(at);
    line.push("\n");
    line
}

#[tactic(auto, unfolding(script_model::specs::Outputs::refused_disagree))]
fn disagree_line(first: &Name, second: &Name, region: u32, number: u64) -> Line
    ensures { result ≡ refused_disagree first.now second.now region number }
{
    let mut line = line_of("refused disagree ");
    push_name(&mut line, first);
    line.push(" ");
    push_name(&mut line, second);
    line.push(" ");
    line.push_number(region as u64);
    line.push(" ");
    line.push_number(number);
    line.push("\n");
    line
}

#[tactic(auto, unfolding(script_model::specs::Outputs::refused_store))]
fn store_line(name: &Name) -> Line
    ensures { result ≡ refused_store name.now }
{
    let mut line = line_of("refused store ");
    push_name(&mut line, name);
    line.push("\n");
    line
}

#[tactic(auto, unfolding(crate::specs::Refusals::refused_position))]
fn position_line(file: u64, has: u64) -> Line
    ensures { result ≡ refused_position file has }
{
    let mut line = line_of("refused position ");
    line.push_number(file);
    line.push(" ");
    line.push_number(has);
    line.push("\n");
    line
}

/// The line of a refusal. It takes no memory.
#[tactic(auto, unfolding(script_model::specs::Outputs::refused_memory, script_model::specs::Outputs::refused_usage, script_model::specs::Outputs::refused_source, script_model::specs::Outputs::refused_disk))]
pub fn refusal_line(refusal: &Refusal) -> Line
    ensures { result ≡ refusal_text refusal.now }
{
    match refusal {
        Refusal::Memory => line_of("refused memory\n"),
        Refusal::Usage => line_of("refused usage\n"),
        Refusal::Script { line, why } => script_line(*line, *why),
        Refusal::Source => line_of("refused source\n"),
        Refusal::Disk => line_of("refused disk\n"),
        Refusal::Damaged { name, at } => damaged_line(name, *at),
        Refusal::Disagree {
            first,
            second,
            region,
            number,
        } => disagree_line(first, second, *region, *number),
        Refusal::Store { name } => store_line(name),
        Refusal::Position { file, has } => position_line(*file, *has),
    }
}
