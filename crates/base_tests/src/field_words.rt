//! Elements of the field and Reed-Solomon words whose values were found by hand or by other programs.

ghost use Rattle.std.specs.Prelude.{◌≡◌, ◌<◌, ◌*◌, length};

use gf256::{Gf, null_vector, solve};
use rs_code::{Coder, TooFar, correct, parity};
use std::process::Abort;

/// A word with t = 3.
const SENT: [u8; 40] = [
    1, 11, 35, 73, 125, 191, 15, 109, 217, 83, 219, 113, 21, 199, 135, 85, 49, 27, 19, 25, 45, 79,
    127, 189, 9, 99, 203, 65, 197, 87, 247, 165, 97, 43, 97, 102, 231, 76, 45, 139,
];

fn element(value: u8) -> Gf
    ensures { result.value ≡ value }
{
    Gf { value }
}

fn assert_product(rt: &impl Abort, a: u8, b: u8, product: u8) {
    assert!(rt; element(a).mul(element(b)).value == product);
}

#[test]
fn elements_have_known_products(rt: HostRuntime) {
    assert_product(&rt, 0x02, 0x80, 0x1D);
    assert_product(&rt, 0x03, 0x03, 0x05);
    assert_product(&rt, 0x03, 0x42, 0xC6);
    assert_product(&rt, 0x03, 0x4E, 0xD2);
    assert_product(&rt, 0x02, 0x8E, 0x01);
    assert_product(&rt, 0x00, 0x8E, 0x00);
    assert!(rt; element(0x53).add(element(0xCA)).value == 0x99);
    assert!(rt; element(0x02).inv().value == 0x8E);
    assert!(rt; element(0x02).pow(8).value == 0x1D);
    assert!(rt; element(0x00).pow(0).value == 1);
}

// 5 + 7 = 2 and 2 * 5 + 7 = 0D; then the second equation is twice the first.
#[test]
fn equations_have_one_solution_or_none(rt: HostRuntime) {
    let mut rows = [[Gf::ZERO; 33]; 32];
    rows[0][0].value = 1;
    rows[0][1].value = 1;
    rows[0][2].value = 2;
    rows[1][0].value = 2;
    rows[1][1].value = 1;
    rows[1][2].value = 0x0D;
    let solution = solve(&mut rows, 2).expect(&rt, "regular");
    assert!(rt; solution[0].value == 5 && solution[1].value == 7 && solution[2].value == 0);

    let mut rows = [[Gf::ZERO; 33]; 32];
    rows[0][0].value = 1;
    rows[0][1].value = 3;
    rows[1][0].value = 2;
    rows[1][1].value = 6;
    assert!(rt; solve(&mut rows, 2).is_none());
}

// The rows 1 1 1 and 1 2 4 annihilate the multiples of 6 5 3.
#[test]
fn two_rows_are_annihilated(rt: HostRuntime) {
    let mut rows = [[Gf::ZERO; 17]; 16];
    rows[0][0].value = 1;
    rows[0][1].value = 1;
    rows[0][2].value = 1;
    rows[1][0].value = 1;
    rows[1][1].value = 2;
    rows[1][2].value = 4;
    let vector = null_vector(&mut rows, 2);
    assert!(rt; vector[2].value != 0);
    let scale = element(3).mul(vector[2].inv());
    assert!(rt; vector[0].mul(scale).value == 6 && vector[1].mul(scale).value == 5);
    assert!(rt; vector[3].value == 0);
}

/// Corrects a word, by itself and by a coder, and shows what it becomes and what is answered.
fn assert_corrected(
    rt: &impl Abort,
    received: &[u8; 40],
    length: usize,
    t: u32,
    near: &[u8],
    answer: Result<u32, TooFar>,
) {
    assert!(rt; 1 <= t && t <= 3 && 2 * (t as usize) < length && length <= 40);
    let mut word = *received;
    let ended = correct(&mut word[..length], t);
    assert!(rt; ended == answer && &word[..length] == near);
    let mut word = *received;
    let ended = Coder::new(t).correct(&mut word[..length]);
    assert!(rt; ended == answer && &word[..length] == near);
}

/// Three symbols, in front of others that don't matter.
fn three_symbols(first: u8, second: u8, third: u8) -> [u8; 40] {
    let mut word = SENT;
    word[0] = first;
    word[1] = second;
    word[2] = third;
    word
}

#[test]
fn words_of_three_symbols_are_corrected(rt: HostRuntime) {
    assert_corrected(&rt, &three_symbols(1, 3, 7), 3, 1, &[1, 3, 2], Ok(1));
    assert_corrected(&rt, &three_symbols(0, 2, 2), 3, 1, &[0, 2, 2], Err(TooFar));
    assert_corrected(&rt, &three_symbols(0, 0, 2), 3, 1, &[0, 0, 0], Ok(1));
    assert_corrected(&rt, &three_symbols(0, 0, 0), 3, 1, &[0, 0, 0], Ok(0));
    let mut checks = [0; 2];
    parity(&[1], 1, &mut checks);
    assert!(rt; checks == [3, 2]);
}

/// The sent word with other symbols at up to four places: each a place, and what is added there.
fn with_changes(sent: &[u8; 40], changes: &[(u8, u8); 4]) -> [u8; 40] {
    let mut word = *sent;
    for (place, change) in changes {
        word[*place as usize % 40] ^= *change;
    }
    word
}

/// Adds the changes to the sent word, and shows in how many symbols the near word differs, if any.
fn assert_near(rt: &impl Abort, changes: &[(u8, u8); 4], answer: Result<u32, TooFar>) {
    let received = with_changes(&SENT, changes);
    let near = if answer == Err(TooFar) {
        received
    } else {
        SENT
    };
    assert_corrected(rt, &received, 40, 3, &near, answer);
}

// The last four changes come to another word, which has seven symbols unlike those of the sent one.
#[test]
fn the_near_word_is_found_where_there_is_one(rt: HostRuntime) {
    let mut checks = [0; 6];
    parity(&SENT[..34], 3, &mut checks);
    assert!(rt; &checks[..] == &SENT[34..]);
    assert_near(&rt, &[(0, 0), (0, 0), (0, 0), (0, 0)], Ok(0));
    assert_near(&rt, &[(0, 1), (0, 0), (0, 0), (0, 0)], Ok(1));
    assert_near(&rt, &[(39, 255), (0, 0), (0, 0), (0, 0)], Ok(1));
    assert_near(&rt, &[(33, 7), (34, 7), (0, 0), (0, 0)], Ok(2));
    assert_near(&rt, &[(3, 5), (20, 9), (0, 0), (0, 0)], Ok(2));
    assert_near(&rt, &[(1, 2), (2, 4), (3, 8), (0, 0)], Ok(3));
    assert_near(&rt, &[(0, 9), (17, 200), (38, 1), (0, 0)], Ok(3));
    assert_near(&rt, &[(5, 1), (6, 1), (7, 1), (8, 1)], Err(TooFar));
    assert_near(&rt, &[(0, 255), (13, 16), (26, 3), (39, 80)], Err(TooFar));
    let received = with_changes(&SENT, &[(0, 1), (4, 155), (9, 212), (15, 95)]);
    let other = with_changes(&received, &[(22, 142), (30, 136), (39, 23), (0, 0)]);
    assert_corrected(&rt, &received, 40, 3, &other, Ok(3));
}

/// Corrects the word of 255 zeros with sixteen other symbols, so far from one another.
fn assert_sixteen_corrected(rt: &impl Abort, from: usize, step: usize) {
    assert!(rt; from < 15 && step <= 16);
    let mut received = [0; 255];
    for j in 0..16 {
        received[from + j * step] = 0xff;
    }
    let mut word = received;
    assert!(rt; correct(&mut word, 16) == Ok(16) && word == [0; 255]);
    let mut word = received;
    assert!(rt; Coder::new(16).correct(&mut word) == Ok(16) && word == [0; 255]);
}

#[test]
fn sixteen_of_255_symbols_are_corrected(rt: HostRuntime) {
    assert_sixteen_corrected(&rt, 0, 1);
    assert_sixteen_corrected(&rt, 3, 2);
    assert_sixteen_corrected(&rt, 14, 7);
    assert_sixteen_corrected(&rt, 14, 16);
}

// The symbol 1 with t = 1, alone and side by side with a 0.
#[test]
fn a_coder_completes_words_side_by_side(rt: HostRuntime) {
    let coder = Coder::new(1);
    let mut checks = [0; 2];
    coder.parity(&[1], &mut checks);
    assert!(rt; checks == [3, 2]);
    let remainder = coder.remainder(&[1, 0, 0]);
    assert!(rt; remainder[0] == 3 && remainder[1] == 2);
    let mut columns = [0; 4];
    coder.interleaved_parity(&[1, 0], 2, &mut columns);
    assert!(rt; columns == [3, 0, 2, 0]);
    assert!(rt; coder.are_code_words(&[1, 0, 3, 0, 2, 0], 2));
    assert!(rt; !coder.are_code_words(&[1, 0, 3, 0, 2, 1], 2));
    assert!(rt; coder.is_code_word(&[1, 3, 2]) && !coder.is_code_word(&[1, 3, 7]));
}
