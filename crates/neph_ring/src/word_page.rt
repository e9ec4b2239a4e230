// A page as a list of words.
ghost use Rattle.std.specs.Prelude.{◌≡◌, IfOk, replicate, vec_len};

use crate::words::Words;
use neph_base::{NoMemory, TABLE_ENTRIES};
use std::alloc::Global;

/// A page that lies by itself, as the list of its words.
#[derive(Drop)]
pub struct WordPage {
    /// The words.
    pub words: Vec<u64>,
    ghost full: { vec_len words ≡ 512 },
}

impl WordPage {
    ghost use Rattle.neph_ring.specs.Bytes.{bytes_of_words};
    ghost use Rattle.neph_ring.specs.Pages.{IsQuiet};

    /// A page of zeros. Nothing waits on it.
    pub fn new(alloc: Global) -> Result<WordPage, NoMemory>
        ensures words { IfOk result (λ p. p.words.items ≡ replicate 512 0) }
        ensures quiet { IfOk result (λ p. IsQuiet (bytes_of_words p.words.items)) }
    {
        let words = vec![in alloc; 0u64; TABLE_ENTRIES]?;
        Ok(WordPage { words })
    }
}

impl Words for WordPage {
    ghost words = { λ p. p.words.items };

    ghost keeps_rest = { λ _ _. Unit {0} };

    ghost use Rattle.std.proofs.Common.{◌∙◌, sym};

    ghost full = { λ p. sym p.words.ok.0 ∙ p.full };

    ghost rest_same = { λ _. tt };

    ghost rest_trans = { λ _ _ _ _ _. tt };

    fn get(&mut self, w: u16) -> u64 {
        self.words[w as usize]
    }

    fn set(&mut self, w: u16, v: u64) {
        self.words[w as usize] = v;
    }
}
