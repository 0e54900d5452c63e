//! What is wrong with a text that is no list, and where.
ghost use Rattle.std.specs.Prelude.{◌≡◌};
ghost use Rattle.cpu_list.specs.FaultTitle.{list_code, list_title};

/// Why an item is no part of a list. Of several causes the first in this order is named.
#[derive(Clone, Copy, Debug, PartialEq, Eq)]
pub enum ListErrorKind {
    /// E10: the item is neither a number nor a range of two.
    BadItem,
    /// E11: a number of the item isn't below the limit.
    TooLarge,
    /// E12: the range's first number is above its last.
    Descending,
}

impl ListErrorKind {
    /// The number of the cause, where it is an argument of another refusal.
    pub fn code(self) -> &'static str
        ensures { result.now ≡ list_code self }
    {
        match self {
            ListErrorKind::BadItem => "E10",
            ListErrorKind::TooLarge => "E11",
            ListErrorKind::Descending => "E12",
        }
    }

    /// The number and the name that a refusal's line has.
    pub fn title(self) -> &'static str
        ensures { result.now ≡ list_title self }
    {
        match self {
            ListErrorKind::BadItem => "E10 BadItem",
            ListErrorKind::TooLarge => "E11 TooLarge",
            ListErrorKind::Descending => "E12 Descending",
        }
    }
}

/// The first faulty item of a text.
#[derive(Clone, Copy, Debug, PartialEq, Eq)]
pub struct ListError {
    /// The place of the item's first byte after blanks, counted in bytes from 0.
    pub at: usize,
    pub kind: ListErrorKind,
}
