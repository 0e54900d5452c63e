//! Where bundles come from.
ghost use Rattle.std.specs.Prelude.{◌≡◌, ℕ, List, None, Option, IfOk, option_map, ⊤};
ghost use Rattle.runtime.specs.RuntimeState.{Told};
ghost use Rattle.runtime.specs.Found.{IsFound};

use std::alloc::AllocError;

/// Where bundles come from (OCI Runtime Specification 1.0.2, bundle.md): each has a name and a `config.json`.
pub trait Bundles {
    /// The configs of all bundles by the bundles' names, where they are told. No call changes them.
    ghost told: { Self → Told } = { λ _. None };

    /// What a look at the bundle of a name may find: the bytes of its config, or none.
    ghost finds: { List ℕ → Option (List ℕ) → Type 0 } = { λ _ _. ⊤ };

    /// The bytes of the bundle's config, or none where there is no such bundle or its config can't be read.
    ///
    /// # Errors
    /// An allocation failure.
    fn config(&mut self, bundle: &str) -> Result<Option<Vec<u8>>, AllocError>
        ensures found { IfOk result (λ found. IsFound (told self.old) bundle.now
            (option_map (λ config. config.items) found)) }
        ensures seen { IfOk result (λ found. finds bundle.now (option_map (λ config. config.items) found)) }
        ensures same { told self.new ≡ told self.old };

    /// Tells the operator, if that is possible, where the config of a bundle, these bytes, stops being JSON.
    fn tell_not_json(&self, bundle: &str, config: &[u8]);
}
