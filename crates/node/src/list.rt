//! The containers with their statuses.
ghost use Rattle.std.specs.Prelude.{◌≡◌};
ghost use Rattle.std.specs.Iterator.{YieldsFirstBy, item_count};
ghost use Rattle.node.specs.Listed.{listing};

use crate::Node;
use crate::container::{Container, Status};
use crate::sets::status;
use indexmap::map::Iter;
use kernel_model::Kernel;
use std::marker::Model;

/// The containers' ids with their statuses, in the order in which the containers were created.
#[derive(Drop)]
pub struct Listing<'a, K: Kernel> {
    entries: Iter<'a, String, Container>,
    kernel: &'a K,
}

impl<'a, K: Kernel> Model for Listing<'a, K> {
    ghost use Rattle.std.specs.Prelude.{ℕ, List, map};
    ghost use Rattle.node.specs.declared.container.Status.{Status as Word};
    ghost use Rattle.node.specs.Listed.{entry_listed, listing_code};

    ghost Value = { List (List ℕ × Word) };

    ghost coded = { listing_code };

    ghost use Rattle.node.specs.Viewed.{entry_seen};

    ghost view = { λ s. map (λ e. entry_listed (K.state s.kernel.now) (entry_seen e)) s.entries };
}

impl<'a, K: Kernel> Iterator for Listing<'a, K> {
    type Item = (&'a str, Status);

    ghost next_gives = { YieldsFirstBy (λ p. (p.0.now, p.1)) (λ s. s) };

    ghost remaining = { item_count (λ s. s) };

    fn next(&mut self) -> Option<(&'a str, Status)> {
        let (id, container) = self.entries.next()?;
        Some((id.as_str(), status(self.kernel, container)))
    }
}

impl<K: Kernel + Drop> Node<K> {
    /// The containers' ids with their statuses, in the order in which the containers were created.
    pub fn list(&self) -> Listing<'_, K>
        ensures { result ≡ listing self.now }
    {
        Listing {
            entries: self.containers.iter(),
            kernel: &self.kernel,
        }
    }
}
