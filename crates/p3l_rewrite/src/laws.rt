// Laws of programs that mean the same: what the modules of a program make of words, one by one, and how a pipe may
// be written otherwise.

ghost use Rattle.p3l_rewrite.specs.Placed.{PlacedProgramsMean, PlacedProgramsServe};
ghost use Rattle.p3l_rewrite.specs.Candidates.{OthersAreRewritten};
ghost use Rattle.p3l_rewrite.specs.Costs.{OthersKeepCosts};
ghost use Rattle.p3l_rewrite.specs.Programs.{RewrittenProgramsResolve, RewrittenProgramsMean};
ghost use Rattle.p3l_rewrite.specs.Texts.{OthersHaveTexts};
ghost use Rattle.p3l_rewrite.specs.Trees.{FarmIsItsWorker, CompIsItsPipe, RewrittenTreesMean};

/// A law of modules: a farm makes of words what its worker does.
pub fn farm_is_its_worker()
    ensures { FarmIsItsWorker }
{}

/// A law of modules: a comp of a pipe's calls, with no rescue number, makes of words what the pipe does.
pub fn comp_is_its_pipe()
    ensures { CompIsItsPipe }
{}

/// A law of trees: where a pipe is written otherwise, and all modules before it are as they were, its tree
/// means the same of all items, traps with their kinds and modules included.
pub fn rewritten_trees_mean()
    ensures { RewrittenTreesMean }
{}

/// A law of programs: where one is another with its pipe `main` written otherwise, and both keep the rules, the
/// trees that they resolve to are what the rewriting says.
pub fn rewritten_programs_resolve()
    ensures { RewrittenProgramsResolve }
{}

/// And so they mean the same of all items, and the modules before `main` keep their numbers.
pub fn rewritten_programs_mean()
    ensures { RewrittenProgramsMean }
{}

/// Each way to write a program is the program with its pipe `main` written otherwise.
pub fn others_are_rewritten()
    ensures { OthersAreRewritten }
{}

/// If some text spells a program, each of these has a text too: its canonical one, which is read as it but for
/// positions, if it is within the limit of a source text.
pub fn others_have_texts()
    ensures { OthersHaveTexts }
{}

/// The costs of a program's tree are costs of the tree of each of these that keeps the rules, once the modules that are
/// added have no ticks and one turn.
pub fn others_keep_costs()
    ensures { OthersKeepCosts }
{}

/// If a text spells a program but for positions, what it spells keeps the rules if the program does, and means the
/// same.
pub fn placed_programs_mean()
    ensures { PlacedProgramsMean }
{}

/// And it has the program's service time.
pub fn placed_programs_serve()
    ensures { PlacedProgramsServe }
{}
