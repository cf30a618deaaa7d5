ghost use Rattle.std.specs.Prelude.{◌≡◌, ◌⊎◌, ℕ, List, Result, Ok, Err};
ghost use Rattle.std.specs.List.{AllByRecursion};
ghost use Rattle.code_spec.specs.Code.{CodeData, IsCode};
ghost use Rattle.text_reading.specs.Lines.{Leads};
ghost use Rattle.code_text_spec.specs.CodeText.{IsCodeText, code_text};
ghost use Rattle.code_text_spec.specs.LineRules.{Place, at_version, Keeps, IsWrongLine};
ghost use Rattle.code_tables.specs.declared.fault.CodeTextFault.{CodeTextFault};
ghost use Rattle.code_tables.specs.declared.fault.CodeTextFault.TheVariants.{NoMemory};
ghost use Rattle.code_tables.specs.ReadCode.{ReadsCode, HasNoFeed};

/// Each text is the text of a code or has a first wrong line, and not both; it is the text of one
/// code at most, and one line at most is the first wrong one.
pub fn code_or_wrong_line()
    ensures either { (bytes : List ℕ)
        → ((c : CodeData) × IsCodeText bytes c) ⊎ ((n : ℕ) × IsWrongLine bytes n) }
    ensures not_both { (bytes : List ℕ) (c : CodeData) (n : ℕ) → IsCodeText bytes c
        → IsWrongLine bytes n → ⊥ }
    ensures one_code { (bytes : List ℕ) (c e : CodeData) → IsCodeText bytes c → IsCodeText bytes e
        → c ≡ e }
    ensures one_line { (bytes : List ℕ) (m n : ℕ) → IsWrongLine bytes m → IsWrongLine bytes n
        → m ≡ n }
{}

/// Reading the text of a code gives that code, want of memory aside.
pub fn text_is_read_back()
    ensures { (c : CodeData) (result : Result CodeData CodeTextFault) → IsCode c
        → ReadsCode (code_text c) result
        → (result ≡ Ok c) ⊎ (result ≡ Err NoMemory) }
{}

/// No line that keeps its rule has a line feed in it, so the number of the first wrong line is 1
/// and the number of line feeds before it, as an editor counts lines.
pub fn kept_lines_have_no_line_feed()
    ensures { (lines : List (List ℕ)) (there : Place) → Leads Keeps at_version lines there
        → AllByRecursion HasNoFeed lines }
{}
