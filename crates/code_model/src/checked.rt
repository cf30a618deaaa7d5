ghost use Rattle.std.specs.Prelude.{◌≡◌};
ghost use Rattle.code_spec.specs.Checked.{IsCheckedCode};

use crate::Code;
use std::marker::Model;

/// A code that was checked: all that it writes from state 0 keeps its constraint, and its window
/// tells the data words (Marcus, Roth, Siegel, chapter 4: sliding-block decodable encoder).
#[derive(Debug, Drop)]
pub struct CheckedCode {
    code: Code,
}

impl Model for CheckedCode {
    ghost use Rattle.code_spec.specs.Code.{CodeData};

    ghost Value = { CodeData };

    ghost view = { λ c. c.code };

    ghost use Rattle.code_spec.specs.Checked.{IsCheckedCode};

    ghost invariant = { λ c. IsCheckedCode c.code };
}

impl CheckedCode {
    /// The code as a checked one.
    pub fn wrap(code: Code) -> CheckedCode
        requires checked { IsCheckedCode code }
        ensures same { result ≡ code }
    {
        CheckedCode { code }
    }

    /// The code.
    pub fn code(&self) -> &Code
        ensures same { result.now ≡ self.now }
        ensures checked { IsCheckedCode self.now }
    {
        &self.code
    }

    /// Hands out the code itself.
    pub fn into_code(self) -> Code
        ensures same { result ≡ self }
        ensures checked { IsCheckedCode self }
    {
        self.code
    }
}
