ghost use Rattle.std.specs.Prelude.{◌≡◌, ℕ, ◌^◌, ◌<◌, List, [], length, All, Result, Ok};
ghost use Rattle.code_spec.specs.declared.fault.EndFault.{EndFault};
ghost use Rattle.code_spec.specs.Code.{CodeData, IsCode};
ghost use Rattle.code_spec.specs.Checked.{IsCheckedCode};
ghost use Rattle.code_spec.specs.PlainText.{plain_text};
ghost use Rattle.code_spec.specs.PlainReading.{marks_in, IsPlainFront};
ghost use Rattle.block_codec.specs.TextDecoding.{EndsText};

/// The plain text of a file, wherever line feeds, carriage returns and spaces stand in it and
/// however it is cut into pieces, gives the file: the bytes that its feeds put behind one another
/// are the file, and the end is its length.
pub fn plain_text_gives_its_file()
    ensures start { (c : CodeData) → IsCode c → IsPlainFront c [] [] }
    ensures bytes { (c : CodeData) (file text bytes : List ℕ) → IsCheckedCode c
        → All (λ byte. byte < 2 ^ 8) file
        → marks_in text ≡ marks_in (plain_text c file) → IsPlainFront c text bytes → bytes ≡ file }
    ensures end { (c : CodeData) (file text : List ℕ) (result : Result ℕ EndFault) → IsCheckedCode c
        → All (λ byte. byte < 2 ^ 8) file
        → marks_in text ≡ marks_in (plain_text c file) → EndsText c text result
        → result ≡ Ok (length file) }
{}
