//! Bundles that are folders.
ghost use Rattle.std.specs.Prelude.{◌≡◌, IfOk, None, option_map, string_bytes};
ghost use Rattle.runtime.specs.Found.{IsFound};
ghost use Rattle.cli.specs.Configs.{IsConfigIn, IsConfigOf, config_path};

use answers::Opens;
use faults::OrMemory;
use json_text::flaw_in;
use program_io::{Input, ReadFault};
use runtime::Bundles;
use std::alloc::{AllocError, Global};

/// The file of a bundle that says what is to be run (OCI Runtime Specification 1.0.2, bundle.md).
const CONFIG: &str = "/config.json";

/// Bundles that are folders with a `config.json`, by the folders' names. What is in them is not known.
#[derive(Drop)]
pub struct Folders<'a, F> {
    alloc: Global,
    /// What opens the configs.
    pub files: &'a F,
}

impl<'a, F> Folders<'a, F> {
    /// The bundles among these files. Allocates nothing.
    pub fn new(alloc: Global, files: &'a F) -> Folders<'a, F>
        ensures { result.files.now ≡ files.now }
    {
        Folders { alloc, files }
    }
}

/// Where the config of a bundle is.
fn path_in(alloc: Global, bundle: &str) -> Result<String, AllocError>
    ensures { IfOk result (λ path. string_bytes path ≡ config_path bundle.now) }
{
    let mut path = String::from_str(alloc, bundle)?;
    path.push_str(CONFIG)?;
    Ok(path)
}

impl<F: Opens> Bundles for Folders<'_, F> {
    ghost finds = { IsConfigIn F.opens F.fails F.File.gives };

    fn config(&mut self, bundle: &str) -> Result<Option<Vec<u8>>, AllocError>
        ensures found { IfOk result (λ found. IsFound None bundle.now (option_map (λ config. config.items) found)) }
        ensures seen { IfOk result (λ found. IsConfigIn F.opens F.fails F.File.gives bundle.now
            (option_map (λ config. config.items) found)) }
        ensures same { self.new.files.now ≡ self.old.files.now }
        ensures config { IfOk result (λ found. IsConfigOf (F.opens self.old.files.now) (F.fails self.old.files.now)
            F.File.gives
            bundle.now (option_map (λ config. config.items) found)) }
    {
        let path = path_in(self.alloc, bundle)?;
        let file = match self.files.open(path.as_str()) {
            Ok(file) => file,
            Err(error) => {
                self.files
                    .tell_unread(self.alloc, path.as_str(), ReadFault::from(error));
                return Ok(None);
            }
        };
        match file.read_whole(self.alloc) {
            Ok(bytes) => Ok(Some(bytes)),
            Err(OrMemory::Memory) => Err(AllocError),
            Err(OrMemory::Fault(fault)) => {
                self.files.tell_unread(self.alloc, path.as_str(), fault);
                Ok(None)
            }
        }
    }

    fn tell_not_json(&self, bundle: &str, config: &[u8]) {
        if let Ok(Some(flaw)) = flaw_in(self.alloc, config)
            && let Ok(path) = path_in(self.alloc, bundle)
        {
            self.files.tell(self.alloc, path.as_str(), flaw);
        }
    }
}
