/// An order as it stands in a file. The case says its kind; the slice is the part of the file with its body.
#[derive(Clone, Copy)]
pub(crate) enum RawOrder<'a> {
    Open(&'a [u8]),
    Mark(&'a [u8]),
    Position(&'a [u8]),
    Declare(&'a [u8]),
    Deposit(&'a [u8]),
    Withdraw(&'a [u8]),
    Suspend(&'a [u8]),
    Settle(&'a [u8]),
    Seize(&'a [u8]),
}
