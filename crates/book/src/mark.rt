use rules::sizes::MOST_HAIRCUT;

/// What an asset is marked at.
#[derive(Clone, Copy, PartialEq, Eq, Debug)]
pub(crate) struct Mark {
    pub(crate) price: u32,
    /// In thousandths.
    pub(crate) haircut: u16,
}

/// Yen: worth what it says, and never marked otherwise.
pub(crate) const YEN: Mark = Mark {
    price: 1,
    haircut: 0,
};

/// An asset before it is first marked, and a number that no asset has: worth nothing.
pub(crate) const UNMARKED: Mark = Mark {
    price: 0,
    haircut: MOST_HAIRCUT,
};
