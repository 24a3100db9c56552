ghost use Rattle.custody.specs.LayoutLaws.{page_layout_lawful};
ghost use Rattle.custody.specs.Pages.{page_layout};

use crate::cell::MemoryCell;
use crate::lent::LentCustodian;

/// A custodian that keeps eight bytes for each box, highest byte first, in memory that the caller lends.
pub type BytePage<'a> = LentCustodian<'a, u8>;

impl MemoryCell for u8 {
    ghost layout = { page_layout };

    ghost laws = { page_layout_lawful };

    fn room(memory: &[u8]) -> usize {
        memory.len() / 8
    }

    fn load(memory: &[u8], box_number: usize) -> Option<u64> {
        let (words, _) = memory.as_chunks::<8>();
        let word = words.get(box_number)?;
        Some(u64::from_be_bytes(*word))
    }

    fn store(memory: &mut [u8], box_number: usize, number: u64) {
        // Not `as_chunks_mut`: its contract does not say what the slice is once a chunk is written.
        if box_number < Self::room(memory) {
            let start = box_number * 8;
            memory[start..start + 8].copy_from_slice(&number.to_be_bytes());
        }
    }

    fn clear(memory: &mut [u8], boxes: usize) {
        let count = Self::room(memory).min(boxes);
        memory[..count * 8].fill(0);
    }
}
