/// How far a text has been read.
#[derive(Clone, Copy)]
pub enum Stage {
    /// Nothing yet.
    Start,
    /// The header, and some rows, sets and prices.
    Body,
    /// A plan's total too.
    Totalled,
    /// A plan's last line too.
    Planned,
    /// The header, the rows, and some members of a shortage.
    Named,
    /// A shortage's last line too.
    Shown,
}
