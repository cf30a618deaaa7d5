//! How a code is spelled as a code file: the grammar that reader and writer are proved against.
#![tactic(auto)]

ghost use Rattle.std.specs.Prelude.{◌≡◌, ℕ, ◌+◌, ◌*◌, ◌^◌, List, ◌∷◌, ◌++◌, length, codes};
ghost use Rattle.std.specs.Fmt.{decimal};
ghost use Rattle.code_spec.specs.Code.{CodeData, IsCode};
ghost use Rattle.code_text_spec.specs.CodeText.{spaced, constraint_lines, table_lines, code_lines, text_of, code_text};

/// A code file is a head, which the constraint alone decides, and behind it the rate, the window
/// and the table.
pub fn constraint_stands_in_front()
    ensures parts { (front back : List (List ℕ))
        → text_of (front ++ back) ≡ text_of front ++ text_of back }
    ensures front { (c : CodeData) → code_text c
        ≡ text_of (codes "modcode 1" ∷ constraint_lines c.constraint)
        ++ text_of (spaced (codes "rate") (spaced (decimal c.p) (decimal c.q))
        ∷ spaced (codes "window") (spaced (decimal c.past) (decimal c.ahead))
        ∷ spaced (codes "states") (decimal (length c.rows))
        ∷ table_lines c 0 c.rows) }
{}

/// A code file has nine lines of its own, and one for each forbidden word, each edge and each row.
pub fn lines_are_counted()
    ensures { (c : CodeData) → IsCode c
        → length (code_lines c)
        ≡ 9 + length c.constraint.forbid + length c.constraint.edges + length c.rows * 2 ^ c.p }
{}
