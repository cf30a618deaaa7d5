ghost use Rattle.std.specs.Prelude.{◌≡◌, IfErr, IfOk};
ghost use Rattle.code_spec.specs.Checked.{IsCheckedCode};
ghost use Rattle.code_check.specs.CheckFault.{IsCheckFault, IsWithinLimits};

use crate::ambiguity::least_ambiguous_pair;
use crate::fault::CheckFault;
use crate::words::least_words_outside;
use code_model::{CheckedCode, Code};
use min_cover::cover;
use std::alloc::Global;

/// The code as a checked one, where all that it writes from state 0 keeps its constraint, and its
/// window tells the data words (Marcus, Roth, Siegel, chapter 4: sliding-block decodable encoder).
///
/// Else the code comes back with the first fault, in the order of the variants.
pub fn check(alloc: Global, code: Code) -> Result<CheckedCode, (Code, CheckFault)>
    ensures same { IfOk result (λ checked. checked ≡ code) }
    ensures checked { IfOk result (λ _. IsCheckedCode code) }
    ensures limits { IfOk result (λ _. IsWithinLimits code.constraint) }
    ensures back { IfErr result (λ refused. refused.0 ≡ code) }
    ensures fault { IfErr result (λ refused. IsCheckFault code refused.1) }
{
    match test(alloc, &code) {
        Ok(()) => Ok(CheckedCode::wrap(code)),
        Err(fault) => Err((code, fault)),
    }
}

/// Tests whether the code is a checked one.
fn test(alloc: Global, code: &Code) -> Result<(), CheckFault>
    ensures checked { IfOk result (λ _. IsCheckedCode code.now) }
    ensures limits { IfOk result (λ _. IsWithinLimits code.now.constraint) }
    ensures fault { IfErr result (IsCheckFault code.now) }
{
    let cover = cover(alloc, &code.constraint)?;
    if let Some(words) = least_words_outside(alloc, code, &cover)? {
        return Err(CheckFault::OutOfConstraint(words));
    }
    match least_ambiguous_pair(alloc, code)? {
        Some((first, second)) => Err(CheckFault::Ambiguous(first, second)),
        None => Ok(()),
    }
}
