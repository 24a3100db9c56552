ghost use Rattle.std.specs.Prelude.{◌≡◌};
ghost use Rattle.custody.specs.CustodyLaws.{lent_lawful};
ghost use Rattle.custody.specs.Layouts.{boxes_of, cleared_memory, put_memory, take_memory};
ghost use Rattle.custody.specs.Moves.{Cleared, Put, Take};

use crate::cell::MemoryCell;
use crate::custodian::{Custodian, PutRefusal, TakeRefusal};
use rules::sizes::{BOXES, MOST_UNITS};

/// A custodian that keeps a number for each box in memory that the caller lends. A box whose whole number is not in the
/// memory has limit 0; a part of a number, and memory past the last box, are never touched.
#[derive(Drop)]
pub struct LentCustodian<'a, Cell> {
    memory: &'a mut [Cell],
}

impl<'a, Cell: MemoryCell> LentCustodian<'a, Cell> {
    /// Takes the memory as it is: what is stored there counts as held until the custodian is cleared.
    pub fn new(memory: &'a mut [Cell]) -> Self
        ensures memory { result.memory.now ≡ memory.old }
        ensures lent { result.memory.ghost_name ≡ memory.entry.ghost_name }
    {
        LentCustodian { memory }
    }
}

impl<Cell: MemoryCell> Custodian for LentCustodian<'_, Cell> {
    ghost boxes = { λ custodian. boxes_of Cell.layout custodian.memory.now };

    ghost laws = { lent_lawful Cell.layout (λ custodian. custodian.memory.now) };

    fn clear(&mut self)
        ensures moved { Cleared (boxes_of Cell.layout self.old.memory.now) (boxes_of Cell.layout self.new.memory.now) }
        ensures memory { self.new.memory.now ≡ cleared_memory Cell.layout self.old.memory.now }
        ensures lent { self.new.memory.ghost_name ≡ self.old.memory.ghost_name }
    {
        Cell::clear(self.memory, BOXES);
    }

    fn held(&self, box_number: usize) -> u64 {
        match Cell::load(self.memory, box_number) {
            Some(number) if box_number < BOXES => number.min(MOST_UNITS),
            _ => 0,
        }
    }

    fn limit(&self, box_number: usize) -> u64 {
        let has_number = box_number < BOXES && box_number < Cell::room(self.memory);
        if has_number { MOST_UNITS } else { 0 }
    }

    // Put and take stay two functions: one adds and asks for the limit, the other takes away and asks for the holding,
    // and each has a refusal of its own. That it is still the same lent memory, each call has to say of itself.
    fn put(&mut self, box_number: usize, units: u64) -> Result<(), PutRefusal>
        ensures moved { Put (boxes_of Cell.layout self.old.memory.now) (boxes_of Cell.layout self.new.memory.now) box_number units result }
        ensures memory { self.new.memory.now ≡ put_memory Cell.layout self.old.memory.now box_number units }
        ensures lent { self.new.memory.ghost_name ≡ self.old.memory.ghost_name }
    {
        let held = self.held(box_number);
        if units > self.limit(box_number) - held {
            return Err(PutRefusal::OverLimit);
        }
        if units > 0 {
            Cell::store(self.memory, box_number, held + units);
        }
        Ok(())
    }

    fn take(&mut self, box_number: usize, units: u64) -> Result<(), TakeRefusal>
        ensures moved { Take (boxes_of Cell.layout self.old.memory.now) (boxes_of Cell.layout self.new.memory.now) box_number units result }
        ensures memory { self.new.memory.now ≡ take_memory Cell.layout self.old.memory.now box_number units }
        ensures lent { self.new.memory.ghost_name ≡ self.old.memory.ghost_name }
    {
        let held = self.held(box_number);
        if units > held {
            return Err(TakeRefusal::TooFewUnits);
        }
        if units > 0 {
            Cell::store(self.memory, box_number, held - units);
        }
        Ok(())
    }
}
