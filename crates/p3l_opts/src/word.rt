// The words that come after the first word of a command, and the values that they have.

ghost use Rattle.std.specs.Prelude.{◌≡◌};
ghost use Rattle.p3l_opts.specs.Word.{name_of};

use p3l_base::limits::{MOST_PROCESSORS, MOST_TOKENS, MOST_WORKERS};

/// A value that words may have for a command.
#[derive(Clone, Copy, Drop)]
pub enum Value {
    /// The name of a program's file.
    Program,
    /// The name of an image's file.
    Image,
    /// The name of a snapshot's file.
    Snapshot,
    /// A number of 32 bits.
    Number,
    /// A count of processors.
    Processors,
    /// A count of segments.
    Segments,
    /// The most tokens in a channel.
    Capacity,
    /// A count of items.
    Items,
    /// The way in which picks are made.
    Schedule,
    /// The same, where the picks must be those of a file.
    Recorded,
    /// The name of a file of costs.
    Costs,
    /// The name of the file that is written.
    Output,
    /// The name of a certificate's file.
    Cert,
    /// The name of a trace's file.
    Trace,
    /// The name of the file that picks are written to.
    Picks,
    /// The text with which the names of saved files begin.
    Save,
    /// A request to report the numbers of a run.
    Stats,
    /// A request to write the processes of each node.
    Processes,
}

/// A word that comes after the first word of a command, by the value that it has.
#[derive(Clone, Copy, Drop)]
pub enum Word {
    /// `VALUE`, which has to be there.
    Positional(Value),
    /// `--name VALUE`, which has to be there.
    Mandatory(Value),
    /// `--name VALUE`.
    Optional(Value),
    /// `--name`.
    Flag(Value),
}

/// A range of counts.
#[derive(Clone, Copy, Drop)]
pub struct Range {
    /// The greatest count; the least is 1.
    pub most: u32,
    /// The count where no word spells one; without it, one must.
    pub default: Option<u32>,
}

/// The counts of processors.
pub const PROCESSORS: Range = Range {
    most: MOST_PROCESSORS,
    default: None,
};

/// The counts of processors up to which advice is given.
pub const ADVISED: Range = Range {
    most: MOST_PROCESSORS,
    default: Some(MOST_PROCESSORS),
};

/// The counts of segments.
pub const SEGMENTS: Range = Range {
    most: MOST_WORKERS,
    default: None,
};

/// The counts of tokens that a channel may hold.
pub const CAPACITY: Range = Range {
    most: MOST_TOKENS,
    default: Some(4),
};

/// The counts of items that may be generated.
pub const ITEMS: Range = Range {
    most: 100_000,
    default: Some(1000),
};

impl Value {
    /// Returns the name by which `clap` and options have the value.
    pub(crate) fn name<'a>(self) -> &'a str
        ensures { result.now ≡ name_of self }
    {
        match self {
            Value::Program => "program",
            Value::Image => "image",
            Value::Snapshot => "snapshot",
            Value::Number => "number",
            Value::Processors => "processors",
            Value::Segments => "segments",
            Value::Capacity => "capacity",
            Value::Items => "items",
            Value::Schedule | Value::Recorded => "schedule",
            Value::Costs => "costs",
            Value::Output => "output",
            Value::Cert => "cert",
            Value::Trace => "trace",
            Value::Picks => "picks",
            Value::Save => "save",
            Value::Stats => "stats",
            Value::Processes => "processes",
        }
    }
}

impl Word {
    /// Returns the value that the word has.
    pub(crate) fn value(self) -> Value {
        match self {
            Word::Positional(value)
            | Word::Mandatory(value)
            | Word::Optional(value)
            | Word::Flag(value) => value,
        }
    }
}
