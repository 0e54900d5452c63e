ghost use Rattle.std.specs.Prelude.{◌≡◌};
ghost use Rattle.config_json.specs.PathOf.{path_of};

/// A member of a config whose presence or kind is checked.
#[derive(Clone, Copy, Debug, PartialEq, Eq)]
pub enum Field {
    /// The version of the specification that the config follows.
    OciVersion,
    /// The root filesystem.
    Root,
    /// The path to the root filesystem.
    RootPath,
    /// The part of the config that is for Linux alone.
    Linux,
    /// What the container may use of the machine.
    Resources,
    /// The CPU section of the resources.
    Cpu,
    /// The quota of the CPU section.
    Quota,
    /// The period of the CPU section.
    Period,
    /// The list of CPUs of the CPU section.
    Cpus,
    /// The list of memory nodes of the CPU section.
    Mems,
}

impl Field {
    /// The dotted path of the member from the top of the config, as `linux.resources.cpu.quota`.
    pub fn path(self) -> &'static str
        ensures { result.now ≡ path_of self }
    {
        match self {
            Field::OciVersion => "ociVersion",
            Field::Root => "root",
            Field::RootPath => "root.path",
            Field::Linux => "linux",
            Field::Resources => "linux.resources",
            Field::Cpu => "linux.resources.cpu",
            Field::Quota => "linux.resources.cpu.quota",
            Field::Period => "linux.resources.cpu.period",
            Field::Cpus => "linux.resources.cpu.cpus",
            Field::Mems => "linux.resources.cpu.mems",
        }
    }
}
