ghost use Rattle.std.specs.Prelude.{◌≡◌, Some, None, cond, min, nat_lt};
ghost use Rattle.custody.specs.Layouts.{Layout, LawfulLayout};

/// What memory that a caller lends can be made of: how a number for each box lies in it.
pub trait MemoryCell: Copy {
    /// How the numbers lie in the memory.
    ghost layout: { Layout Self };

    /// How many boxes have their whole number in the memory.
    fn room(memory: &[Self]) -> usize
        ensures { result ≡ layout.room memory.now };

    /// The number of a box, if it is in the memory.
    fn load(memory: &[Self], box_number: usize) -> Option<u64>
        ensures { result ≡ cond (nat_lt box_number (layout.room memory.now)) (Some (layout.number memory.now box_number)) None };

    /// Writes the number of a box, if it is in the memory.
    fn store(memory: &mut [Self], box_number: usize, number: u64)
        ensures { memory.new ≡ cond (nat_lt box_number (layout.room memory.old)) (layout.stored memory.old box_number number) memory.old };

    /// Writes 0 as the number of each of the first boxes, as many as are asked for and in the memory.
    fn clear(memory: &mut [Self], boxes: usize)
        ensures { memory.new ≡ layout.cleared memory.old (min (layout.room memory.old) boxes) };

    /// A number is read as it was written, with no other changed.
    ghost laws: { LawfulLayout layout };
}
