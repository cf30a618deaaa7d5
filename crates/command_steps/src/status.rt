ghost use Rattle.std.specs.Prelude.{◌≡◌};
ghost use Rattle.command_steps.specs.StatusLine.{exit_status};

use code_spec::Walk;
use constraint_file_spec::ConstraintFault;
use label_graphs::TwoStates;
use std::alloc::{AllocError, AllocFailed};
use symbol_base::{NoMemory, WordList};

/// Why a code file is refused.
#[derive(Debug, PartialEq, Eq, Drop)]
pub enum CodeFault {
    /// The number, from 1, of the first line that breaks its rule.
    BadCode(u64),
    /// The first data words, shorter lists first, for which the code writes no word of its
    /// constraint.
    OutOfConstraint(WordList),
    /// The first two walks that write the same blocks, while the window is to tell different words.
    Ambiguous(Walk, Walk),
}

/// Why a channel text is refused.
#[derive(Clone, Copy, Debug, PartialEq, Eq)]
pub enum ChannelFault {
    /// The offset of the first byte that is no digit of the alphabet, and isn't passed over.
    BadSymbol(u64),
    /// The count of symbols, which isn't a multiple of a block's.
    PartBlock(u64),
    /// The count of blocks, fewer than those of lead-in and lead-out.
    TooShort(u64),
    /// The count of data words between lead-in and lead-out, which no file is padded to.
    PartByte(u64),
}

/// A counted number that is over its limit, with its value.
#[derive(Clone, Copy, Debug, PartialEq, Eq)]
pub enum Limit {
    /// The raw states of the constraint's words, as far as they are counted: one more than the
    /// limit.
    RawStates(u32),
    /// The states of the constraint's cover.
    CoverStates(u32),
    /// The memory of the constraint, in symbols.
    MemoryTooLong(u32),
    /// The edges of the power of the cover.
    PowerEdges(u64),
    /// The weights of the states that a design begins with, together.
    Weight(u64),
    /// The weights of the targets of their edges, together.
    Spread(u64),
}

/// How a command ended.
#[derive(Debug, PartialEq, Eq, Drop)]
pub enum Status {
    /// The command was done.
    Done,
    /// The words are none of the command line's forms.
    Usage,
    /// The shelf failed.
    ShelfFault,
    /// The command was done but for printing, and the sink failed.
    SinkFault,
    /// A file that was read, or the text that would have been written, has more bytes than this
    /// limit.
    FileTooLong(u64),
    /// The constraint file is refused.
    ConstraintRefused(ConstraintFault),
    /// A counted number is over its limit.
    TooLarge(Limit),
    /// The constraint has no finite memory: these two states of its cover read one word back to
    /// themselves.
    InfiniteMemory(TwoStates),
    /// No approximate eigenvector is within the bound.
    NoVector,
    /// The code file is refused.
    CodeRefused(CodeFault),
    /// The channel text is refused.
    ChannelRefused(ChannelFault),
    /// Memory was wanted and not found.
    NoMemory,
    /// An input file isn't there: the place of its name among the words, the command being word 0.
    FileMissing(u32),
}

impl Status {
    /// The exit status of the program.
    pub fn number(&self) -> u8
        ensures { result ≡ exit_status self.now }
    {
        match self {
            Status::Done => 0,
            Status::Usage => 1,
            Status::ShelfFault => 2,
            Status::SinkFault => 3,
            Status::FileTooLong(_) => 4,
            Status::ConstraintRefused(_) => 5,
            Status::TooLarge(_) => 6,
            Status::InfiniteMemory(_) => 7,
            Status::NoVector => 8,
            Status::CodeRefused(_) => 9,
            Status::ChannelRefused(_) => 10,
            Status::NoMemory => 13,
            Status::FileMissing(_) => 14,
        }
    }
}

impl From<NoMemory> for Status {
    ghost use Rattle.command_steps.specs.declared.status.Status.TheVariants as statuses;

    ghost from_gives = { λ _ status. status ≡ statuses.NoMemory };

    fn from(_error: NoMemory) -> Status {
        Status::NoMemory
    }
}

impl From<AllocError> for Status {
    ghost use Rattle.command_steps.specs.declared.status.Status.TheVariants as statuses;

    ghost from_gives = { λ _ status. status ≡ statuses.NoMemory };

    fn from(_error: AllocError) -> Status {
        Status::NoMemory
    }
}

impl<T: Drop> From<AllocFailed<T>> for Status {
    ghost use Rattle.command_steps.specs.declared.status.Status.TheVariants as statuses;

    ghost from_gives = { λ _ status. status ≡ statuses.NoMemory };

    fn from(_error: AllocFailed<T>) -> Status {
        Status::NoMemory
    }
}
