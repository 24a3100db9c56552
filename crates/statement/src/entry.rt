use rules::refusal::Refusal;
use std::fmt;

/// An order in words, and how the book answered it.
#[derive(Drop)]
pub struct Entry<'a> {
    pub order: &'a str,
    pub answer: Result<(), Refusal>,
}

impl fmt::Display for Entry<'_> {
    fn fmt<W: fmt::Write>(&self, f: &mut fmt::Formatter<W>) -> fmt::Result {
        match self.answer {
            Ok(()) => write!(f, "accepted    {}", self.order),
            Err(refusal) => write!(
                f,
                "refused {:>2}  {}: {refusal}",
                refusal.number(),
                self.order
            ),
        }
    }
}
