// The places of `main` and other modules among entries.

ghost use Rattle.std.specs.Prelude.{◌≡◌, map, option_map};
ghost use Rattle.p3l_ast.specs.Tree.{module_tree, entry_tree};
ghost use Rattle.p3l_rewrite.specs.Candidates.{around_main, named_in};
ghost use Rattle.p3l_rewrite.specs.Around.{around_tree, named_tree};

use p3l_ast::{Entry, Module};
use p3l_base::Name;

/// The name of the module that a stream of items goes into.
const MAIN: &str = "main";

/// The entries before `main`, `main`, and those after it.
#[derive(Drop)]
pub struct Around<'a> {
    pub front: &'a [Entry],
    pub main: &'a Module,
    pub back: &'a [Entry],
}

/// The entries around the first module `main`, if there is one.
pub fn around_main<'a>(entries: &'a [Entry]) -> Option<Around<'a>>
    ensures { option_map around_tree result ≡ around_main (map entry_tree entries.now) }
{
    for (place, entry) in entries.iter().enumerate() {
        match entry {
            Entry::Constant(_, _) => {}
            Entry::Module(main) => {
                if main.at.name.as_str() == MAIN {
                    return Some(Around {
                        front: &entries[..place],
                        main,
                        back: &entries[place + 1..],
                    });
                }
            }
        }
    }
    None
}

/// The first module of a name, if there is one.
pub fn named_in<'a>(entries: &'a [Entry], name: &Name) -> Option<&'a Module>
    ensures { option_map named_tree result ≡ named_in (map entry_tree entries.now) name.now }
{
    for entry in entries {
        match entry {
            Entry::Constant(_, _) => {}
            Entry::Module(module) => {
                if module.at.name == *name {
                    return Some(module);
                }
            }
        }
    }
    None
}
