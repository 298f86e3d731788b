// The lines of refused cost files.

ghost use Rattle.std.specs.Prelude.{◌≡◌};
ghost use Rattle.p3l_base.specs.Memory.{IfGiven};
ghost use Rattle.p3l_report.specs.Costs.{cost_line, keyed_line};
ghost use Rattle.p3l_report.specs.LineText.{line_text};

use crate::line::{MessageLine, no_memory_line};
use p3l_base::{Name, NoMemory};
use p3l_cost::CostRefusal;
use std::alloc::Global;

/// The line of a cost file that is refused.
pub fn cost_line(alloc: Global, refusal: &CostRefusal) -> Result<MessageLine, NoMemory>
    ensures { IfGiven result (λ line. line_text line ≡ cost_line refusal.now) }
{
    match refusal {
        CostRefusal::NotToml => Ok(MessageLine::Fixed("costs: 50 NotToml\n")),
        CostRefusal::BadKey(key) => keyed_line(alloc, "51 BadKey", key),
        CostRefusal::BadValue(key) => keyed_line(alloc, "52 BadValue", key),
        CostRefusal::Missing(name) => keyed_line(alloc, "53 Missing", name),
        CostRefusal::NoMemory => Ok(no_memory_line()),
    }
}

/// The line of a refusal with its key.
fn keyed_line(alloc: Global, what: &'static str, name: &Name) -> Result<MessageLine, NoMemory>
    ensures { IfGiven result (λ line. line_text line ≡ keyed_line what.now name.now) }
{
    let name = name.as_str();
    let text = format!(in alloc; "costs: {what} {name}\n")?;
    Ok(MessageLine::Made(text))
}
