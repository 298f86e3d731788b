// The pages of the numbers of refusal: the rule, the shortest text that breaks it with what the
// program says of it, and how to mend it. A table for each group of numbers, in a file of its own.

pub(crate) mod evidence;
pub(crate) mod modules;
pub(crate) mod runs;
pub(crate) mod sheets;
pub(crate) mod texts;

pub(crate) use evidence::EVIDENCE;
pub(crate) use modules::MODULES;
pub(crate) use runs::RUNS;
pub(crate) use sheets::SHEETS;
pub(crate) use texts::TEXTS;
