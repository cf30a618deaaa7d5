use thiserror::Error;

/// Why a piece of a text was not taken.
#[derive(Clone, Copy, Debug, PartialEq, Eq, Error)]
pub enum TextFault {
    /// The offset, in all that has come, of the first byte that is no digit of the alphabet and
    /// isn't passed over.
    #[error("byte {0} is no symbol")]
    BadSymbol(u64),
    /// Memory was wanted and not found.
    #[error("out of memory")]
    NoMemory,
}
