// A law of the words.

ghost use Rattle.p3l_opts.specs.Laws.{SpellsOneAtMost};

/// Words spell at most one command.
pub fn one_command_at_most()
    ensures { SpellsOneAtMost }
{}
