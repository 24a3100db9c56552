ghost use Rattle.custody.specs.Remembered.{Remembered};

/// Does nothing. Its contract is that what a register or a page stores for a box is read again by a register or a page
/// over the same memory.
pub fn memory_remembers()
    ensures { Remembered }
{}
