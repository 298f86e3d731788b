// Why a source text is refused.

ghost use Rattle.std.specs.Prelude.{◌≡◌};
ghost use Rattle.p3l_base.specs.Memory.{Refused};
ghost use Rattle.p3l_ast.specs.declared.refusal.SourceRefusal.TheVariants.{NoMemory};
ghost use Rattle.p3l_ast.specs.Refusal.{number_of, name_of};

use crate::position::Pos;
use p3l_base::NoMemory as Wanting;
use std::alloc::{AllocError, AllocFailed};

/// A fault of a source text, in the order of the numbers.
#[derive(Clone, Copy, Debug, Drop, PartialEq, Eq)]
pub enum Fault {
    /// A byte that is in no token.
    BadByte,
    /// A number with letters or a leading zero, a lone `$`, or a comment that is not closed.
    BadToken,
    /// No program goes on with this token, or the text ends too early.
    Expected,
    /// A number above 9223372036854775807.
    NumberTooBig,
    /// A word of more than 64 bytes.
    NameTooLong,
    /// A text of more than 1,048,576 bytes.
    SourceTooLong,
    /// The 65th open bracket of a body, or the 257th operator of an expression.
    TooNested,
    /// A name that nothing defines.
    UnknownName,
    /// A size that is no number from 1 to 65,536, or a fourth one.
    BadSize,
    /// More than 65,536 words.
    TooWide,
    /// A name that is taken.
    Twice,
    /// No module `main`.
    NoMain,
    /// A name that is defined here or later.
    UsedBeforeDefined,
    /// A call with too many or too few arguments.
    Arity,
    /// An argument whose sizes are not those of the port.
    TypeDiffers,
    /// An argument that is not the one which the skeleton requires.
    Wiring,
    /// A free index that does not fit.
    FreeIndex,
    /// An operator that no `reduce` can have.
    BadOperator,
    /// A module that is not sequential where one has to be.
    NotInComp,
    /// A `loop` whose ins and outs differ, or whose condition is no number.
    LoopTypes,
    /// A number of a clause out of its range.
    BadWorkers,
    /// More instances of modules than a tree may have nodes.
    TooManyInstances,
    /// Modules nested deeper than 6.
    TooDeep,
    /// Too many firings or runs for one item.
    TooHeavy,
    /// A name in a body that nothing declares.
    Undeclared,
    /// A local variable whose name is taken.
    DeclaredTwice,
    /// Brackets after a name that is no array.
    NotArray,
    /// An array without a bracket for each size.
    IsArray,
    /// An assignment to an in port or a constant.
    WriteToIn,
}

impl Fault {
    /// The number that stands for the fault in what the program prints.
    pub fn number(self) -> u8
        ensures { result ≡ number_of self }
    {
        match self {
            Fault::BadByte => 1,
            Fault::BadToken => 2,
            Fault::Expected => 3,
            Fault::NumberTooBig => 4,
            Fault::NameTooLong => 5,
            Fault::SourceTooLong => 6,
            Fault::TooNested => 8,
            Fault::UnknownName => 10,
            Fault::BadSize => 11,
            Fault::TooWide => 12,
            Fault::Twice => 20,
            Fault::NoMain => 21,
            Fault::UsedBeforeDefined => 22,
            Fault::Arity => 23,
            Fault::TypeDiffers => 24,
            Fault::Wiring => 25,
            Fault::FreeIndex => 26,
            Fault::BadOperator => 27,
            Fault::NotInComp => 28,
            Fault::LoopTypes => 29,
            Fault::BadWorkers => 30,
            Fault::TooManyInstances => 31,
            Fault::TooDeep => 32,
            Fault::TooHeavy => 33,
            Fault::Undeclared => 40,
            Fault::DeclaredTwice => 41,
            Fault::NotArray => 42,
            Fault::IsArray => 43,
            Fault::WriteToIn => 44,
        }
    }

    /// The name of the fault, as the program prints it.
    pub fn name(self) -> &'static str
        ensures { result.now ≡ name_of self }
    {
        match self {
            Fault::BadByte => "BadByte",
            Fault::BadToken => "BadToken",
            Fault::Expected => "Expected",
            Fault::NumberTooBig => "NumberTooBig",
            Fault::NameTooLong => "NameTooLong",
            Fault::SourceTooLong => "SourceTooLong",
            Fault::TooNested => "TooNested",
            Fault::UnknownName => "UnknownName",
            Fault::BadSize => "BadSize",
            Fault::TooWide => "TooWide",
            Fault::Twice => "Twice",
            Fault::NoMain => "NoMain",
            Fault::UsedBeforeDefined => "UsedBeforeDefined",
            Fault::Arity => "Arity",
            Fault::TypeDiffers => "TypeDiffers",
            Fault::Wiring => "Wiring",
            Fault::FreeIndex => "FreeIndex",
            Fault::BadOperator => "BadOperator",
            Fault::NotInComp => "NotInComp",
            Fault::LoopTypes => "LoopTypes",
            Fault::BadWorkers => "BadWorkers",
            Fault::TooManyInstances => "TooManyInstances",
            Fault::TooDeep => "TooDeep",
            Fault::TooHeavy => "TooHeavy",
            Fault::Undeclared => "Undeclared",
            Fault::DeclaredTwice => "DeclaredTwice",
            Fault::NotArray => "NotArray",
            Fault::IsArray => "IsArray",
            Fault::WriteToIn => "WriteToIn",
        }
    }
}

/// Why a source text is refused.
#[derive(Clone, Copy, Debug, Drop, PartialEq, Eq)]
pub enum SourceRefusal {
    /// A fault and where it is.
    At { fault: Fault, pos: Pos },
    NoMemory,
}

impl From<AllocError> for SourceRefusal {
    ghost from_gives = { λ _ e. (e ≡ NoMemory) × Refused };

    fn from(failed: AllocError) -> SourceRefusal {
        let _want = Wanting::from(failed);
        SourceRefusal::NoMemory
    }
}

impl<T: Drop> From<AllocFailed<T>> for SourceRefusal {
    ghost from_gives = { λ _ e. (e ≡ NoMemory) × Refused };

    fn from(failed: AllocFailed<T>) -> SourceRefusal {
        let _want = Wanting::from(failed);
        SourceRefusal::NoMemory
    }
}

impl From<Wanting> for SourceRefusal {
    ghost from_gives = { λ _ e. e ≡ NoMemory };

    fn from(_want: Wanting) -> SourceRefusal {
        SourceRefusal::NoMemory
    }
}
