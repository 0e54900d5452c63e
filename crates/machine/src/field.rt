ghost use Rattle.std.specs.Prelude.{◌≡◌};
ghost use Rattle.machine.specs.FieldName.{name_of};

/// A member of a machine file.
#[derive(Clone, Copy, Debug, PartialEq, Eq)]
pub enum Field {
    Nodes,
    Distances,
    Reserved,
    Offline,
    Cores,
}

impl Field {
    /// The member's name in the file.
    pub fn name(self) -> &'static str
        ensures { result.now ≡ name_of self }
    {
        match self {
            Field::Nodes => "nodes",
            Field::Distances => "distances",
            Field::Reserved => "reserved",
            Field::Offline => "offline",
            Field::Cores => "cores",
        }
    }
}
