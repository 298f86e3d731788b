//! Laws of the bodies of a program that was read: they can be compiled, they serve its tree, and they
//! can be written as C and mean the same there.
#![tactic(auto)]

ghost use Rattle.p3l_body_laws.specs.Checked.{BodyCompiles, BodiesCompile, BodiesServe};
ghost use Rattle.p3l_body_laws.specs.Numbers.{NumbersAreSmall};
ghost use Rattle.p3l_body_laws.specs.Programs.{BodiesWrite, BodiesMean};
ghost use Rattle.p3l_body_laws.specs.Served.{ResolvedServe};

/// A law of programs that were read: what a module of one is checked to can be compiled.
pub fn body_compiles()
    ensures { BodyCompiles }
{}

/// The same of all the `seq` modules of a program, with the constants before each.
pub fn bodies_compile()
    ensures { BodiesCompile }
{}

/// A law of programs that were read, and of their trees: what their `seq` modules are checked to are
/// the bodies of the tree.
pub fn bodies_serve()
    ensures { BodiesServe }
{}

/// The same of a program that keeps all the rules of the language: its bodies are those of its tree.
pub fn resolved_serve()
    ensures { ResolvedServe }
{}

/// A law of texts: `int64_t` has each number of the program that a text spells.
pub fn numbers_are_small()
    ensures { NumbersAreSmall }
{}

/// A law of programs that were read and keep the rules of the language: each of their bodies can be
/// written as C.
pub fn bodies_write()
    ensures { BodiesWrite }
{}

/// The same of what their functions do: on all words, each has no undefined behaviour, ends, and
/// gives the meaning of its body.
pub fn bodies_mean()
    ensures { BodiesMean }
{}
