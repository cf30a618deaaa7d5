//! Why a cover has no memory.

use symbol_base::{ByteList, CoverName};

/// Two different states that read one word, of a symbol at least, back to themselves.
#[derive(Debug, PartialEq, Eq, Drop)]
pub struct TwoStates {
    pub first: CoverName,
    pub second: CoverName,
    pub word: ByteList,
}
