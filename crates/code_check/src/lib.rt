//! The checker of codes: whether all that a code writes keeps its constraint, and whether its
//! window tells its data words.
#![tactic(auto)]

ghost use Rattle.std.specs.Prelude.{◌≡◌, ◌⊎◌};
ghost use Rattle.code_spec.specs.Code.{CodeData};
ghost use Rattle.code_spec.specs.Checked.{IsCheckedCode};
ghost use Rattle.code_check.specs.CheckFault.{IsCheckFault, IsWithinLimits};
ghost use Rattle.code_check.specs.declared.fault.CheckFault.{CheckFault};
ghost use Rattle.code_check.specs.declared.fault.CheckFault.TheVariants as faults;

use code_spec::{
    least_ambiguous_pair_is_one, least_words_outside_are_one, window_separates_unless_ambiguous,
};
use min_cover::a_constraint_has_one_cover;

mod ambiguity;
mod by_block;
mod checker;
mod fault;
mod landings;
mod meets;
mod pairs;
mod reader;
mod reads;
mod words;

pub use ambiguity::least_ambiguous_pair;
pub use checker::check;
pub use code_spec::Walk;
pub use fault::CheckFault;
pub use words::least_words_outside;

/// A code has one answer, want of memory aside: a checked code within the limits has no fault, and
/// no code has two.
pub fn a_code_has_one_answer()
    ensures none { (c : CodeData) (fault : CheckFault) → IsCheckedCode c
        → IsWithinLimits c.constraint
        → IsCheckFault c fault → fault ≡ faults.NoMemory }
    ensures one { (c : CodeData) (fault other : CheckFault) → IsCheckFault c fault
        → IsCheckFault c other
        → (fault ≡ faults.NoMemory) ⊎ ((other ≡ faults.NoMemory) ⊎ (fault ≡ other)) }
{
    a_constraint_has_one_cover();
    window_separates_unless_ambiguous();
    least_ambiguous_pair_is_one();
    least_words_outside_are_one();
}
