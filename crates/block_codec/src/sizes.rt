//! The sizes of a code as numbers of their own.

ghost use Rattle.block_codec.specs.inside.Sizes.{AreSizesOf};

use crate::answers::window_length;
use code_model::Code;

/// How many binary digits a data word and a block have, and how many blocks a window.
///
/// They are passed beside a code, so that a caller that knows the first two has its shifts fixed.
#[derive(Clone, Copy, Debug)]
pub(crate) struct Sizes {
    pub(crate) p: u32,
    pub(crate) q: u32,
    pub(crate) length: u32,
}

impl Sizes {
    /// The sizes of a code.
    #[inline]
    pub(crate) fn of(code: &Code) -> Sizes
        ensures { AreSizesOf code.now result }
    {
        Sizes {
            p: code.p,
            q: code.q,
            length: window_length(code),
        }
    }
}
