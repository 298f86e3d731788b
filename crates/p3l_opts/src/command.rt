// Commands with their values.

ghost use Rattle.std.specs.Prelude.{◌≡◌};
ghost use Rattle.p3l_opts.specs.declared.command.OptsRefusal.TheVariants.{NoMemory};

use p3l_base::Name;

/// A command, with the values that its words spell.
#[derive(Drop)]
pub enum Command {
    /// `check PROGRAM`: says whether a program keeps all rules.
    Check {
        program: Name,
    },
    /// `fmt PROGRAM`: writes the canonical text of a program.
    Fmt {
        program: Name,
    },
    /// `explain PROGRAM --processors P [--costs FILE] [--cert FILE]`: writes the allocation, and a
    /// certificate to a file.
    Explain {
        build: Build,
        cert: Option<Name>,
    },
    /// `advise PROGRAM [--processors P] [--costs FILE] [--processes]`: writes what processors buy, or
    /// the processes of each node in its place.
    Advise {
        build: Build,
        processes: bool,
    },
    /// `compile PROGRAM --processors P --output FILE [--costs FILE] [--capacity C]`: writes an image.
    Compile {
        build: Build,
        output: Name,
    },
    /// `run PROGRAM --processors P [--costs FILE] [--schedule S] [--capacity C] [--trace FILE]
    /// [--stats]`: runs a program on the input, writes its trace, and reports the run's numbers.
    Run {
        build: Build,
        schedule: Sched,
        trace: Option<Name>,
        stats: bool,
    },
    /// `exec IMAGE [--schedule S] [--trace FILE] [--stats]`: runs an image on the input, as `run`.
    Exec {
        image: Name,
        schedule: Sched,
        trace: Option<Name>,
        stats: bool,
    },
    /// `migrate IMAGE --output FILE`: writes an image of the newest version with its network linked
    /// anew.
    Migrate {
        image: Name,
        output: Name,
    },
    /// `export PROGRAM --processors P --output FILE [--costs FILE] [--capacity C]`: writes a C file of
    /// a program.
    Export {
        exported: Exported,
        output: Name,
    },
    /// `graph PROGRAM --processors P [--costs FILE] [--capacity C]`: writes a picture of the network.
    Graph {
        build: Build,
    },
    /// `verify-cert PROGRAM --cert FILE [--costs FILE]`: checks a certificate.
    VerifyCert {
        program: Name,
        cert: Name,
        costs: Option<Name>,
    },
    /// `check-trace PROGRAM --processors P --trace FILE [--costs FILE] [--capacity C]`: checks a trace.
    CheckTrace {
        build: Build,
        trace: Name,
    },
    /// `gen N --processors P [--items I] [--schedule S] [--save PREFIX]`: generates a program with
    /// its input and runs it; saves them to files whose names begin with the prefix.
    Gen {
        number: u32,
        processors: u32,
        items: u32,
        schedule: Sched,
        save: Option<Name>,
    },
    /// `rewrite PROGRAM --processors P [--costs FILE]`: writes a program with the same meaning and no
    /// greater service time.
    Rewrite {
        program: Name,
        processors: u32,
        costs: Option<Name>,
    },
    /// `profile PROGRAM`: writes the cost file of what a program does on the items of the input.
    Profile {
        program: Name,
    },
    /// `time PROGRAM --processors P [--costs FILE] [--capacity C] [--picks FILE]`: runs a program on
    /// the input in virtual time, and writes its picks to a file.
    Time {
        build: Build,
        picks: Option<Name>,
    },
    /// `scan PROGRAM --segments M [--schedule S] [--capacity C] [--stats]`: folds all prefixes of
    /// the list of each item.
    Scan {
        program: Name,
        segments: u32,
        schedule: Sched,
        capacity: u32,
        stats: bool,
    },
    /// `save PROGRAM --processors P --schedule file:NAME --output FILE [--costs FILE] [--capacity C]`:
    /// runs the picks of a file on the input and writes the state that they come to.
    Save {
        build: Build,
        picks: Name,
        output: Name,
    },
    /// `resume SNAPSHOT [--schedule S] [--stats]`: continues from a saved state, on the input.
    Resume {
        snapshot: Name,
        schedule: Sched,
        stats: bool,
    },
}

/// The way in which a program's network is built.
#[derive(Drop)]
pub struct Build {
    /// The name of the program's file.
    pub program: Name,
    /// The count of processors, 1 to 512.
    pub processors: u32,
    /// The name of the file of costs; without one, the standard costs hold.
    pub costs: Option<Name>,
    /// The most tokens in a channel, 1 to 1,024.
    pub capacity: u32,
}

/// A program that is exported, and by what its file is made.
#[derive(Drop)]
pub struct Exported {
    /// The name of the program's file.
    pub program: Name,
    /// The count of processors, 1 to 512.
    pub processors: u32,
    /// The name of the file of costs; without one, the standard costs hold.
    pub costs: Option<Name>,
    /// The capacity of every channel in tokens, 1 to 1,024; without one, a capacity is chosen for
    /// each channel.
    pub capacity: Option<u32>,
}

/// The way in which picks are made.
#[derive(Drop)]
pub enum Sched {
    /// The processes take turns.
    RoundRobin,
    /// A generator of this seed picks among those that can fire.
    Seeded(u64),
    /// The picks stand in the file of this name.
    File(Name),
}

/// Why there is no command.
#[derive(Clone, Copy, Debug, Drop, PartialEq, Eq)]
pub enum OptsRefusal {
    /// The words spell none.
    Usage,
    /// Out of memory.
    NoMemory,
}

impl From<p3l_base::NoMemory> for OptsRefusal {
    ghost from_gives = { λ _ refusal. refusal ≡ NoMemory };

    fn from(_want: p3l_base::NoMemory) -> OptsRefusal {
        OptsRefusal::NoMemory
    }
}
