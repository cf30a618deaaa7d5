ghost use Rattle.std.specs.Prelude.{◌≤◌, IfSome, IfOk};
ghost use Rattle.text_reading.specs.Reading.{Gives};
ghost use Rattle.code_tables.specs.inside.Reading.{limit_at, d_at, k_at, forbid_at, head_at};
ghost use Rattle.code_tables.specs.inside.ReadLines.{GivesLines};

use crate::fault::CodeTextFault;
use text_reading::{field, literal};

/// The line of the least run of 0s.
#[tactic(auto, unfolding(crate::specs::inside::Reading::d_at, text_reading::specs::Reading::behind))]
fn d_line(bytes: &[u8]) -> Option<(u32, &[u8])>
    ensures read { Gives (λ x. (x.0, x.1.now)) result (d_at bytes.now) }
    ensures range { IfSome result (λ x. x.0 ≤ 100) }
{
    let rest = literal(bytes, b"d ")?;
    let (d, rest) = field(rest, b'\n', 0, 100)?;
    Some((d as u32, rest))
}

#[tactic(auto, unfolding(crate::specs::inside::Reading::limit_at))]
fn limit(bytes: &[u8], d: u32) -> Option<(Option<u32>, &[u8])>
    ensures read { Gives (λ x. (x.0, x.1.now)) result (limit_at d bytes.now) }
    ensures range { IfSome result (λ x. IfSome x.0 (λ k. (d ≤ k) × (k ≤ 100))) }
{
    if let Some(rest) = literal(bytes, b"-\n") {
        return Some((None, rest));
    }
    let (k, rest) = field(bytes, b'\n', u64::from(d), 100)?;
    Some((Some(k as u32), rest))
}

/// The line of the greatest run of 0s, a dash where there is none.
#[tactic(auto, unfolding(crate::specs::inside::Reading::k_at, text_reading::specs::Reading::behind))]
fn k_line(bytes: &[u8], d: u32) -> Option<(Option<u32>, &[u8])>
    ensures read { Gives (λ x. (x.0, x.1.now)) result (k_at d bytes.now) }
    ensures range { IfSome result (λ x. IfSome x.0 (λ k. (d ≤ k) × (k ≤ 100))) }
{
    limit(literal(bytes, b"k ")?, d)
}

/// The line of the number of forbidden words.
#[tactic(auto, unfolding(crate::specs::inside::Reading::forbid_at, text_reading::specs::Reading::behind))]
fn forbid_line(bytes: &[u8]) -> Option<(u64, &[u8])>
    ensures read { Gives (λ x. (x.0, x.1.now)) result (forbid_at bytes.now) }
    ensures range { IfSome result (λ x. x.0 ≤ 128) }
{
    let rest = literal(bytes, b"forbid ")?;
    field(rest, b'\n', 0, 128)
}

/// Lines 1 to 5: the runs of 0s and the number of forbidden words.
#[tactic(auto, unfolding(crate::specs::inside::Reading::head_at, text_reading::specs::LineReader::below_line, text_reading::specs::LineReader::both_lines, text_reading::specs::LineReader::one_line))]
pub fn read_head(bytes: &[u8]) -> Result<(u32, Option<u32>, u64, &[u8]), CodeTextFault>
    ensures read { GivesLines (λ x. ((x.0, (x.1, x.2)), x.3.now)) result (head_at 1 bytes.now) }
    ensures range { IfOk result (λ x. x.2 ≤ 128) }
{
    let rest = literal(bytes, b"modcode 1\n").ok_or(CodeTextFault::BadCode(1))?;
    let rest = literal(rest, b"alphabet 2\n").ok_or(CodeTextFault::BadCode(2))?;
    let (d, rest) = d_line(rest).ok_or(CodeTextFault::BadCode(3))?;
    let (k, rest) = k_line(rest, d).ok_or(CodeTextFault::BadCode(4))?;
    let (count, rest) = forbid_line(rest).ok_or(CodeTextFault::BadCode(5))?;
    Ok((d, k, count, rest))
}
