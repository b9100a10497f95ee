ghost use Rattle.store.specs.Bytes.{byte_beyond, byte_words};
ghost use Rattle.store.specs.Members.{bytes_counted, bytes_fit};

use crate::bank::{Bank, Lendable};
use crate::store::MOST;

/// A store in bytes that the caller lends, eight to a word, highest byte first. Bytes over, and words past the most,
/// are not counted and never written.
pub type ByteBank<'a> = Bank<'a, u8>;

impl Lendable for u8 {
    ghost words = { byte_words };

    ghost past = { byte_beyond };

    ghost counted = { bytes_counted };

    ghost fits = { bytes_fit };

    #[tactic(auto, using(crate::specs::Members::length_bytes))]
    fn words_in(list: &[u8]) -> u64 {
        (list.len() as u64 / 8).min(MOST)
    }

    #[tactic(auto, using(crate::specs::Members::length_bytes, crate::proofs::Bytes::word_read))]
    fn word_of(list: &[u8], at: u64) -> u64 {
        let i = 8 * at as usize;
        let mut word = [0; 8];
        word.copy_from_slice(&list[i..i + 8]);
        u64::from_be_bytes(word)
    }

    #[tactic(auto, using(crate::specs::Members::length_bytes))]
    fn write_word(list: &mut [u8], at: u64, word: u64) {
        let i = 8 * at as usize;
        list[i..i + 8].copy_from_slice(&word.to_be_bytes());
    }
}
