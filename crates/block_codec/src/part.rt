ghost use Rattle.std.specs.Prelude.{◌≡◌, ℕ, ◌+◌, ◌*◌, ◌%◌, ◌^◌, ◌<◌, ◌≤◌, List, [], ◌++◌, IfSome};
ghost use Rattle.std.specs.Bool.{OnTrue};
ghost use Rattle.symbol_base.specs.Block.{symbols_of};
ghost use Rattle.block_codec.specs.inside.Parts.{IsPart, Holds, Regroups};

/// The binary digits of a group that isn't whole yet, as a number.
#[derive(Clone, Copy, Debug)]
pub(crate) struct Part {
    value: u32,
    count: u32,
}

/// The digits of a number behind those of another.
#[inline]
pub(crate) fn joined(value: u32, count: u32, digits: u32, width: u32) -> u32
    requires value { value < 2 ^ count }
    requires digits { digits < 2 ^ width }
    requires fits { count + width < 32 }
    ensures value { result ≡ value * 2 ^ width + digits }
    ensures below { result < 2 ^ (count + width) }
{
    value << width | digits
}

/// The last so many binary digits of a number.
#[inline]
pub(crate) fn last_digits(value: u32, count: u32) -> u32
    requires { count < 32 }
    ensures value { result ≡ value % 2 ^ count }
    ensures below { result < 2 ^ count }
{
    value & ((1 << count) - 1)
}

/// The digits of a long number behind those of another.
#[inline]
pub(crate) fn joined_wide(value: u64, count: u32, digits: u64, width: u32) -> u64
    requires value { value < 2 ^ count }
    requires digits { digits < 2 ^ width }
    requires fits { count + width ≤ 64 }
    requires narrow { width < 64 }
    ensures value { result ≡ value * 2 ^ width + digits }
    ensures below { result < 2 ^ (count + width) }
{
    value << width | digits
}

/// The last so many binary digits of a long number.
#[inline]
pub(crate) fn last_digits_wide(value: u64, count: u32) -> u64
    requires { count < 64 }
    ensures value { result ≡ value % 2 ^ count }
    ensures below { result < 2 ^ count }
{
    value & ((1 << count) - 1)
}

impl Part {
    /// No digits.
    pub(crate) fn none() -> Part
        ensures part { IsPart 1 result }
        ensures digits { Holds result [] }
    {
        Part { value: 0, count: 0 }
    }

    /// Whether no digits are held.
    #[inline]
    pub(crate) fn is_empty(&self) -> bool
        ensures { OnTrue result (self.now.count ≡ 0) }
    {
        self.count == 0
    }

    /// Puts so many digits behind those of the part, and takes out a group where it is whole.
    #[inline]
    pub(crate) fn add(&mut self, digits: u32, width: u32, size: u32) -> Option<u32>
        requires part { IsPart size self.old }
        requires digits { digits < 2 ^ width }
        requires width { width ≤ size }
        requires fits { size + width < 32 }
        ensures part { IsPart size self.new }
        ensures whole { IfSome result (λ whole. whole < 2 ^ size) }
        ensures digits { (held : List ℕ) → Holds self.old held
            → Regroups size (held ++ symbols_of 2 width digits) self.new result }
    {
        let value = joined(self.value, self.count, digits, width);
        let count = self.count + width;
        if count < size {
            *self = Part { value, count };
            return None;
        }
        let left = count - size;
        let rest = last_digits(value, left);
        *self = Part {
            value: rest,
            count: left,
        };
        Some(value >> left)
    }
}
