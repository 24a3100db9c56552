ghost use Rattle.std.specs.Prelude.{◌≡◌};
ghost use Rattle.custody.specs.Layouts.{cleared_memory, put_memory, take_memory};
ghost use Rattle.custody.specs.Pages.{cleared_page, put_page, take_page};
ghost use Rattle.custody.specs.Registers.{cleared_cells, put_cells, take_cells};

use custody::cell::MemoryCell;
use custody::custodian::{Custodian, PutRefusal, TakeRefusal};
use custody::lent::LentCustodian;
use custody::page::BytePage;
use custody::register::NumberRegister;

/// What the lender of a memory finds there once a custodian over it has cleared its boxes and is gone.
pub fn clear_lent<Cell: MemoryCell>(memory: &mut [Cell])
    ensures { memory.new ≡ cleared_memory Cell.layout memory.old }
{
    LentCustodian::new(memory).clear();
}

// Memory, box and units are what the lender has at hand; a struct of them would be made for a put and a take alone,
// here and on numbers and bytes below.
/// The same after a put.
pub fn put_lent<Cell: MemoryCell>(
    memory: &mut [Cell],
    box_number: usize,
    units: u64,
) -> Result<(), PutRefusal>
    ensures { memory.new ≡ put_memory Cell.layout memory.old box_number units }
{
    LentCustodian::new(memory).put(box_number, units)
}

/// The same after a take.
pub fn take_lent<Cell: MemoryCell>(
    memory: &mut [Cell],
    box_number: usize,
    units: u64,
) -> Result<(), TakeRefusal>
    ensures { memory.new ≡ take_memory Cell.layout memory.old box_number units }
{
    LentCustodian::new(memory).take(box_number, units)
}

// The same of the two memories that there are, each in its own words, so that the words of the register and of the page
// stay bound to what is written there.
/// What the lender of a memory of numbers finds there once a register over it has cleared its boxes and is gone.
pub fn clear_register(memory: &mut [u64])
    ensures { memory.new ≡ cleared_cells memory.old }
{
    NumberRegister::new(memory).clear();
}

/// The same after a put.
pub fn put_register(memory: &mut [u64], box_number: usize, units: u64) -> Result<(), PutRefusal>
    ensures { memory.new ≡ put_cells memory.old box_number units }
{
    NumberRegister::new(memory).put(box_number, units)
}

/// The same after a take.
pub fn take_register(memory: &mut [u64], box_number: usize, units: u64) -> Result<(), TakeRefusal>
    ensures { memory.new ≡ take_cells memory.old box_number units }
{
    NumberRegister::new(memory).take(box_number, units)
}

/// What the lender of a memory of bytes finds there once a page over it has cleared its boxes and is gone.
pub fn clear_page(memory: &mut [u8])
    ensures { memory.new ≡ cleared_page memory.old }
{
    BytePage::new(memory).clear();
}

/// The same after a put.
pub fn put_page(memory: &mut [u8], box_number: usize, units: u64) -> Result<(), PutRefusal>
    ensures { memory.new ≡ put_page memory.old box_number units }
{
    BytePage::new(memory).put(box_number, units)
}

/// The same after a take.
pub fn take_page(memory: &mut [u8], box_number: usize, units: u64) -> Result<(), TakeRefusal>
    ensures { memory.new ≡ take_page memory.old box_number units }
{
    BytePage::new(memory).take(box_number, units)
}

#[cfg(test)]
mod tests {
    use crate::lender::{clear_lent, put_lent, take_lent};
    use custody::custodian::{PutRefusal, TakeRefusal};

    #[test]
    fn numbers_after_each_call(rt: HostRuntime) {
        let mut memory: [u64; 2] = [9; 2];
        clear_lent(&mut memory);
        assert_eq!(rt; put_lent(&mut memory, 1, 5), Ok(()));
        assert_eq!(rt; put_lent(&mut memory, 2, 5), Err(PutRefusal::OverLimit));
        assert_eq!(rt; take_lent(&mut memory, 1, 2), Ok(()));
        assert_eq!(rt; memory, [0, 3]);
    }

    #[test]
    fn bytes_after_each_call(rt: HostRuntime) {
        let mut memory: [u8; 9] = [9; 9];
        clear_lent(&mut memory);
        assert_eq!(rt; put_lent(&mut memory, 0, 0x105), Ok(()));
        assert_eq!(rt; take_lent(&mut memory, 1, 1), Err(TakeRefusal::TooFewUnits));
        assert_eq!(rt; take_lent(&mut memory, 0, 2), Ok(()));
        assert_eq!(rt; memory, [0, 0, 0, 0, 0, 0, 1, 3, 9]);
    }
}
