//! What a code is and what it writes: the definitions that every crate above cites, and their laws.
#![tactic(auto)]

ghost use Rattle.std.specs.Prelude.{◌≡◌, ℕ, ◌+◌, ◌*◌, ◌<◌, ◌^◌, ◌⊎◌, ◌↔◌, List, ◌∷◌, ◌++◌, length, slice_index, All, Result, Ok};
ghost use Rattle.symbol_base.specs.declared.Block.{Block};
ghost use Rattle.symbol_base.specs.Walk.{IsWalk};
ghost use Rattle.code_spec.specs.declared.CodeRow.{CodeRow};
ghost use Rattle.code_spec.specs.Code.{CodeData, IsCode, IsState, IsDataWords};
ghost use Rattle.code_spec.specs.Output.{output_from, state_after, output, IsStep};
ghost use Rattle.code_spec.specs.PlainText.{word_count, file_words, data_words, plain_symbols, plain_text, plain_length};
ghost use Rattle.code_spec.specs.PlainReading.{marks_in, IsPlainFront, ReadsText};
ghost use Rattle.code_spec.specs.declared.fault.EndFault.{EndFault};
ghost use Rattle.code_spec.specs.declared.Walk.{Walk};
ghost use Rattle.code_spec.specs.Checked.{Separates, IsCheckedCode};
ghost use Rattle.code_spec.specs.Decoder.{window_length, IsFound, IsDecoded, AreDecoded, inner_words, DifferAt};
ghost use Rattle.code_spec.specs.Walks.{IsWalkOf, IsBetween};
ghost use Rattle.code_spec.specs.Witness.{IsLeastOutside, IsAmbiguous, IsLeastAmbiguous};

mod fault;

pub use fault::EndFault;
use symbol_base::{Block, CodeName, WordList};

/// What a code does in a state with a data word: the block that it writes, and the next state.
#[derive(Clone, Copy, Debug, PartialEq, Eq, PartialOrd, Ord, Hash)]
pub struct CodeRow {
    pub block: Block,
    pub to: CodeName,
}

/// A walk in a code: where it begins, and the data words that it takes.
#[derive(Debug, Drop, PartialEq, Eq)]
pub struct Walk {
    pub state: CodeName,
    pub words: WordList,
}

/// Data words that follow one another are encoded one part after the other, from the state that the
/// first leads to.
pub fn output_of_parts()
    ensures blocks { (rows : List (List CodeRow)) (state : ℕ) (xs ys : List ℕ)
        → output_from rows state (xs ++ ys)
        ≡ output_from rows state xs ++ output_from rows (state_after rows state xs) ys }
    ensures state { (rows : List (List CodeRow)) (state : ℕ) (xs ys : List ℕ)
        → state_after rows state (xs ++ ys) ≡ state_after rows (state_after rows state xs) ys }
    ensures count { (rows : List (List CodeRow)) (state : ℕ) (words : List ℕ)
        → length (output_from rows state words) ≡ length words }
{}

/// Data words lead from a state of a code along a walk of its steps: to the state after them, which
/// is one of the code's, and to no other.
pub fn words_lead_along_a_walk()
    ensures walk { (c : CodeData) (state : ℕ) (words : List ℕ) (next : ℕ) → IsCode c
        → IsState c state
        → IsWalk (IsStep c) state words next
        ↔ (IsDataWords c words × (next ≡ state_after c.rows state words)) }
    ensures inside { (c : CodeData) (state : ℕ) (words : List ℕ) → IsCode c → IsState c state
        → IsDataWords c words
        → IsState c (state_after c.rows state words) }
{}

/// What is encoded of a file, with lead-in and lead-out, are data words: each has a row in the
/// table.
pub fn files_are_data_words()
    ensures { (c : CodeData) (file : List ℕ) → IsDataWords c (data_words c file) }
{}

/// Where a file's front ends where a data word ends, the words of what stands behind it follow
/// those of the front.
pub fn words_of_a_file_in_parts()
    ensures { (p k : ℕ) (front back : List ℕ) → 0 < p → 8 * length front ≡ p * k
        → file_words p (front ++ back) ≡ file_words p front ++ file_words p back }
{}

/// A plain text has q digits for each block of lead-in, file and lead-out, and a line feed.
pub fn length_of_plain_text()
    ensures symbols { (c : CodeData) (file : List ℕ)
        → length (plain_symbols c file)
        ≡ c.q * (c.past + word_count c.p (8 * length file) + c.ahead) }
    ensures text { (c : CodeData) (file : List ℕ)
        → length (plain_text c file) ≡ plain_length c (length file) }
{}

/// A code's blocks tell the word of one of them exactly where no two walks are ambiguous there.
pub fn window_separates_unless_ambiguous()
    ensures none { (c : CodeData) (past ahead : ℕ)
        → Separates c past ahead
        ↔ ((first second : Walk) → IsAmbiguous c past ahead first second → ⊥) }
{}

/// The least ambiguous pair is one pair.
pub fn least_ambiguous_pair_is_one()
    ensures one { (c : CodeData) (past ahead : ℕ) (first second first' second' : Walk)
        → IsLeastAmbiguous c past ahead first second → IsLeastAmbiguous c past ahead first' second'
        → (first ≡ first') × (second ≡ second') }
{}

/// The least data words that write no word of the constraint are one list.
pub fn least_words_outside_are_one()
    ensures one { (c : CodeData) (words other : List ℕ) → IsLeastOutside c words
        → IsLeastOutside c other → words ≡ other }
{}

/// A checked code has one data word for each window, so its decoder has one answer.
pub fn decoder_has_one_answer()
    ensures { (c : CodeData) (window : List Block) (u v : ℕ) → IsCheckedCode c
        → length window ≡ window_length c
        → IsDecoded c window u → IsDecoded c window v → u ≡ v }
{}

/// A window's word is found between the states that its front leads to and those from which its
/// back can be read.
pub fn word_lies_between()
    ensures { (c : CodeData) (front : List Block) (block : Block) (back : List Block) (word : ℕ)
        → length front ≡ c.past
        → (IsFound c (front ++ (block ∷ back)) word ↔ IsBetween c front block back word) }
{}

/// A wrong block changes only the data words of the places from `ahead` before it to `past` behind
/// it: the word of place j is that of the window that begins at j less `past`.
pub fn wrong_block_reaches_few_words()
    ensures { (c : CodeData) (xs ys : List Block) (us vs : List ℕ) (place at : ℕ) → IsCheckedCode c
        → DifferAt place xs ys
        → AreDecoded c xs us → AreDecoded c ys vs
        → (place < at) ⊎ (at + (c.past + c.ahead) < place) → slice_index us at ≡ slice_index vs at }
{}

/// What a checked code writes is decoded to what was written.
pub fn written_words_are_decoded()
    ensures words { (c : CodeData) (state : ℕ) (words found : List ℕ) → IsCheckedCode c
        → IsState c state
        → IsDataWords c words → AreDecoded c (output c state words) found
        → found ≡ inner_words c words }
    ensures file { (c : CodeData) (file found : List ℕ) → IsCheckedCode c
        → AreDecoded c (output c 0 (data_words c file)) found → found ≡ file_words c.p file }
{}

/// Any walk that writes the blocks answers all their windows, however it was found.
pub fn walk_answers_all_windows()
    ensures { (c : CodeData) (state next : ℕ) (words : List ℕ) (blocks : List Block) → IsCode c
        → IsState c state
        → IsWalkOf c state words blocks next → AreDecoded c blocks (inner_words c words) }
{}

/// A text gives one file or one refusal under a checked code, and one front that may go on.
pub fn text_has_one_reading()
    ensures reading { (c : CodeData) (text : List ℕ) (one other : Result (List ℕ) EndFault)
        → IsCheckedCode c
        → ReadsText c text one → ReadsText c text other → one ≡ other }
    ensures front { (c : CodeData) (text one other : List ℕ) → IsCheckedCode c
        → IsPlainFront c text one → IsPlainFront c text other → one ≡ other }
{}

/// Each text gives a file or is refused, under each code.
pub fn text_has_a_reading()
    ensures { (c : CodeData) (text : List ℕ) → IsCode c
        → (answer : Result (List ℕ) EndFault) × ReadsText c text answer }
{}

/// The plain text of a file is read back to the file, wherever line feeds, carriage returns and
/// spaces stand in it.
pub fn plain_text_is_read_back()
    ensures file { (c : CodeData) (file text : List ℕ) → IsCheckedCode c
        → All (λ byte. byte < 2 ^ 8) file
        → marks_in text ≡ marks_in (plain_text c file) → ReadsText c text (Ok file) }
{}
