// Laws of images that can be run, and of those of programs that keep the rules.

ghost use Rattle.p3l_load.specs.Written.{EveryEntryHasAName, EveryWordIsAName};
ghost use Rattle.p3l_load.specs.Written.{EveryMigratedImageCanBeWritten, EveryRunnableImageCanBeWritten};
ghost use Rattle.p3l_load.specs.Written.{NoRunnableImageIsRefused};
ghost use Rattle.p3l_load.specs.Compiled.{EveryBodyHasItsModule, EveryCompiledImageCanBeRun};
ghost use Rattle.p3l_load.specs.Compiled.{EveryModuleHasAName};

use p3l_link::linker::a_linked_net_is_typed;

/// An image that can be run has fields in their ranges, where its names are names of the language,
/// and its rescue numbers and the operands of its instructions are numbers of their types.
pub fn every_runnable_image_can_be_written()
    ensures { EveryRunnableImageCanBeWritten }
{}

/// An image that was read, in whatever version, and migrated has fields in their ranges.
pub fn every_migrated_image_can_be_written()
    ensures { EveryMigratedImageCanBeWritten }
{}

/// An image that can be run is refused where memory ran out alone.
pub fn no_runnable_image_is_refused()
    ensures { NoRunnableImageIsRefused }
{}

/// A text that the lexer takes for a word is a name of the language, of at most 64 bytes.
pub fn every_word_is_a_name()
    ensures { EveryWordIsAName }
{}

/// The names of the constants and modules that a text spells are such names.
pub fn every_entry_has_a_name()
    ensures { EveryEntryHasAName }
{}

/// The modules of the tree of a program that a text spells have names of the language.
pub fn every_module_has_a_name()
    ensures { EveryModuleHasAName }
{
    every_entry_has_a_name();
}

/// Such a program has as many bodies as its tree has `seq` modules.
pub fn every_body_has_its_module()
    ensures { EveryBodyHasItsModule }
{
    every_entry_has_a_name();
}

/// The image of a program that keeps the rules, with safe codes of its bodies and lawful counts of
/// few processes, can be run.
pub fn every_compiled_image_can_be_run()
    ensures { EveryCompiledImageCanBeRun }
{
    every_body_has_its_module();
    a_linked_net_is_typed();
}
