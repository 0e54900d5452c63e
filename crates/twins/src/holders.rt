use std::marker::Model;

/// How many CPUs of a class one row holds.
#[derive(Clone, Copy, Debug)]
pub struct Share {
    /// The row's number.
    pub row: usize,
    /// How many CPUs.
    pub amount: u32,
}

/// The rows that hold CPUs of one class, each named once, in any order.
#[derive(Debug, Drop)]
pub struct Holders {
    pub shares: Vec<Share>,
}

impl Model for Holders {
    ghost use Rattle.std.specs.Prelude.{List};
    ghost use Rattle.twins.specs.declared.holders.Share.{Share};
    ghost use Rattle.twins.specs.SharesCode.{shares_code};

    ghost Value = { List Share };

    ghost coded = { shares_code };

    ghost view = { λ a. a.shares.items };
}
