ghost use Rattle.std.specs.Prelude.{◌≡◌, ℕ, ◌-◌, ◌<◌, ◌≤◌, ◌^◌, ◌↔◌, List, length, slice_index};
ghost use Rattle.symbol_base.specs.Block.{number_of, symbols_of};
ghost use Rattle.symbol_base.specs.Word.{IsOver, IsBefore};

/// A block of at most 20 symbols, as the number whose digits they are in the alphabet's base, the
/// first symbol most significant.
///
/// Blocks of one length and alphabet stand in the order of their words.
#[derive(Clone, Copy, Debug, PartialEq, Eq, PartialOrd, Ord, Hash)]
pub struct Block {
    pub value: u64,
}

impl Block {
    /// The block of these symbols.
    pub fn from_symbols(symbols: &[u8], alphabet: u8) -> Block
        requires short { length symbols.now ≤ 20 }
        requires over { IsOver alphabet symbols.now }
        requires two { 2 ≤ alphabet }
        requires four { alphabet ≤ 4 }
        ensures value { result.value ≡ number_of alphabet symbols.now }
        ensures below { result.value < alphabet ^ length symbols.now }
    {
        let mut value = 0;
        for symbol in symbols {
            value = value * u64::from(alphabet) + u64::from(*symbol);
        }
        Block { value }
    }

    /// The symbol at place `at` of a block of `q` symbols.
    pub fn symbol(self, at: u32, q: u32, alphabet: u8) -> u8
        requires inside { at < q }
        requires short { q ≤ 20 }
        requires two { 2 ≤ alphabet }
        requires four { alphabet ≤ 4 }
        ensures value { result ≡ slice_index (symbols_of alphabet q self.value) at }
        ensures below { result < alphabet }
    {
        let behind = q - 1 - at;
        match alphabet {
            2 => ((self.value >> behind) & 1) as u8,
            4 => ((self.value >> (2 * behind)) & 3) as u8,
            _ => (self.value / u64::from(alphabet).pow(behind) % u64::from(alphabet)) as u8,
        }
    }
}

/// The symbols of a word's number are the word.
pub fn symbols_of_a_block()
    ensures { (alphabet : ℕ) (word : List ℕ) → 2 ≤ alphabet → IsOver alphabet word
        → symbols_of alphabet (length word) (number_of alphabet word) ≡ word }
{}

/// A number below alphabet^q is that of its q symbols, which are a word over the alphabet.
pub fn block_of_its_symbols()
    ensures value { (alphabet q value : ℕ) → 2 ≤ alphabet → value < alphabet ^ q
        → number_of alphabet (symbols_of alphabet q value) ≡ value }
    ensures word { (alphabet q value : ℕ) → 2 ≤ alphabet
        → IsOver alphabet (symbols_of alphabet q value) }
    ensures count { (alphabet q value : ℕ) → length (symbols_of alphabet q value) ≡ q }
{}

/// Numbers of words of one length stand in the order of the words.
pub fn blocks_in_word_order()
    ensures { (alphabet : ℕ) (u v : List ℕ) → 2 ≤ alphabet → IsOver alphabet u → IsOver alphabet v
        → length u ≡ length v
        → ((number_of alphabet u < number_of alphabet v) ↔ IsBefore u v) }
{}
