//! The limits of programs, trees and networks, each of them said once.

/// The most modules that run in parallel under one clause: workers of a farm, a map or a reduce.
pub const MOST_WORKERS: u32 = 512;

/// The most processors that a program is placed on.
pub const MOST_PROCESSORS: u32 = 512;

/// The most tokens that a channel holds, and the most items that are in a loop at once.
pub const MOST_TOKENS: u32 = 1_024;

/// The most turns that an item takes in a loop.
pub const MOST_TURNS: u32 = 65_536;

/// The most words of an item, and of a variable.
pub const MOST_WORDS: u64 = 65_536;

/// The most sizes of an array.
pub const MOST_SIZES: usize = 3;

/// The most nodes of a tree.
pub const MOST_NODES: u32 = 128;

/// The most processes of a network.
pub const MOST_PROCESSES: u64 = 4_096;

/// The most instructions of a body's code.
pub const MOST_INSTRUCTIONS: u32 = 4_194_304;

/// The most values on the stack of a body's code.
pub const MOST_STACK: u32 = 1_024;

/// The most steps that a budget allows a body.
pub const MOST_BUDGET: u32 = 100_000_000;

/// The most ticks of any one cost.
pub const MOST_COST: u32 = 1_000_000;

/// The most bytes of an image, a certificate, a schedule or a snapshot that is read.
pub const MOST_FILE_BYTES: u64 = 67_108_864;
