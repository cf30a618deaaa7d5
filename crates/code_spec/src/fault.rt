use thiserror::Error;

/// Why a plain channel text is the text of no file.
#[derive(Clone, Copy, Debug, PartialEq, Eq, Error)]
pub enum EndFault {
    /// The offset of the first byte that is no digit of the alphabet, and isn't passed over.
    #[error("byte {0} is no symbol")]
    BadSymbol(u64),
    /// The count of symbols, which isn't a multiple of a block's.
    #[error("{0} symbols end within a block")]
    PartBlock(u64),
    /// The count of blocks, fewer than those of lead-in and lead-out.
    #[error("{0} blocks are fewer than lead-in and lead-out have")]
    TooShort(u64),
    /// The count of data words between lead-in and lead-out, which no file is padded to.
    #[error("{0} data words are not those of whole bytes")]
    PartByte(u64),
}
