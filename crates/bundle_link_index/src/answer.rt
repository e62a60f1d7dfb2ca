//! What is given for a name.

ghost use Rattle.std.specs.Prelude.{◌≡◌, IsTrue, ◌↔◌};
ghost use Rattle.bundle_link_index.specs.Answers as answers;
ghost use Rattle.bundle_link_index.specs.Answers.{with_more};

/// What is given for a name: nothing, one value, or more, of which two are kept.
#[derive(Clone, Copy, PartialEq, Eq, Debug)]
pub enum Candidates {
    Missing,
    One(usize),
    Two(usize, usize),
}

impl Candidates {
    // The answer with one more.
    pub(crate) fn with(self, more: usize) -> Candidates
        ensures { result ≡ with_more self more }
    {
        match self {
            Candidates::Missing => Candidates::One(more),
            Candidates::One(value) => {
                if value == more {
                    Candidates::One(value)
                } else {
                    Candidates::Two(value, more)
                }
            }
            Candidates::Two(first, second) => Candidates::Two(first, second),
        }
    }

    // The answer with all of another.
    pub(crate) fn with_all(self, other: Candidates) -> Candidates
        ensures { result ≡ answers.with_all self other }
    {
        match other {
            Candidates::Missing => self,
            Candidates::One(value) => self.with(value),
            Candidates::Two(first, second) => self.with(first).with(second),
        }
    }

    // Whether it holds two.
    pub(crate) fn is_two(self) -> bool
        ensures { result ≡ answers.is_two self }
    {
        match self {
            Candidates::Two(_, _) => true,
            Candidates::Missing | Candidates::One(_) => false,
        }
    }
}
