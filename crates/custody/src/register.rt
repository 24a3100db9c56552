ghost use Rattle.custody.specs.Registers.{register_layout};
ghost use Rattle.custody.specs.LayoutLaws.{register_layout_lawful};

use crate::cell::MemoryCell;
use crate::lent::LentCustodian;

/// A custodian that keeps one number for each box in memory that the caller lends.
pub type NumberRegister<'a> = LentCustodian<'a, u64>;

impl MemoryCell for u64 {
    ghost layout = { register_layout };

    ghost laws = { register_layout_lawful };

    fn room(memory: &[u64]) -> usize {
        memory.len()
    }

    fn load(memory: &[u64], box_number: usize) -> Option<u64> {
        memory.get(box_number).copied()
    }

    fn store(memory: &mut [u64], box_number: usize, number: u64) {
        // Not `get_mut`: its contract does not say what the slice is once the number is written.
        if box_number < memory.len() {
            memory[box_number] = number;
        }
    }

    fn clear(memory: &mut [u64], boxes: usize) {
        let count = memory.len().min(boxes);
        memory[..count].fill(0);
    }
}
