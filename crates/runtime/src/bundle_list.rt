//! Bundles that are told beforehand.
ghost use Rattle.std.specs.Prelude.{◌≡◌, ℕ, List, Some, map};

use crate::bundles::Bundles;
use std::alloc::{AllocError, Global};
use std::marker::Model;

/// Bundles in memory: the config of each by its name. Of two with one name the first counts.
#[derive(Drop)]
pub struct BundleList<'a> {
    alloc: Global,
    configs: &'a [(&'a str, &'a [u8])],
}

impl<'a> Model for BundleList<'a> {
    ghost Value = { List (List ℕ × List ℕ) };

    ghost view = { λ list. map (λ entry. (entry.0.now, entry.1.now)) list.configs.now };
}

impl<'a> BundleList<'a> {
    /// The bundles of these names with their configs.
    pub fn new(alloc: Global, configs: &'a [(&'a str, &'a [u8])]) -> BundleList<'a>
        ensures { result ≡ map (λ entry. (entry.0.now, entry.1.now)) configs.now }
    {
        BundleList { alloc, configs }
    }
}

impl Bundles for BundleList<'_> {
    ghost told = { λ list. Some list };

    fn config(&mut self, bundle: &str) -> Result<Option<Vec<u8>>, AllocError> {
        for (name, config) in self.configs {
            if bundle == *name {
                return Ok(Some(Vec::from_slice(self.alloc, config)?));
            }
        }
        Ok(None)
    }

    /// There is nobody to tell.
    fn tell_not_json(&self, _bundle: &str, _config: &[u8]) {}
}
