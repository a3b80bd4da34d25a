ghost use Rattle.std.specs.Prelude.{◌≡◌, nat_eq, refl, Some, IfOk, codes};
ghost use Rattle.std.specs.Ordering.{nat_cmp};
ghost use Rattle.std.specs.Hash as fed;
ghost use Rattle.std.specs.Cmp.{partial_equiv_from_equiv};
ghost use Rattle.std.specs.Cmp.Lexicographic.{pointwise, slice_cmp, nat_list_eq_equiv, nat_list_cmp_total, texts_ties, texts_po};
ghost use Rattle.std.specs.Cmp.Rules.{hashing};
ghost use Rattle.std.proofs.Common.{rules};

use crate::shared_bytes::SharedBytes;
use std::alloc::{AllocError, Global};
use std::cmp::Ordering;
use std::hash::{Hash, Hasher};
use std::marker::Model;

/// The bytes of a name, of which `default` takes no memory.
#[derive(Drop)]
pub(crate) struct NameBytes {
    // None stands for `default`.
    own: Option<SharedBytes>,
}

impl Model for NameBytes {
    ghost use Rattle.std.specs.Prelude.{List, ℕ};
    ghost use Rattle.bean_words.specs.Names.{name_bytes};

    ghost Value = { List ℕ };

    ghost view = { λ n. name_bytes n.own };
}

impl NameBytes {
    /// `default`.
    pub(crate) fn of_default() -> NameBytes
        ensures { result ≡ codes "default" }
    {
        NameBytes { own: None }
    }

    /// These bytes, which are copied.
    pub(crate) fn new(alloc: Global, bytes: &[u8]) -> Result<NameBytes, AllocError>
        ensures { IfOk result (λ n. n ≡ bytes.now) }
    {
        Ok(NameBytes {
            own: Some(SharedBytes::new(alloc, bytes)?),
        })
    }

    /// The bytes.
    pub(crate) fn as_slice(&self) -> &[u8]
        ensures { result.now ≡ self.now }
    {
        match &self.own {
            None => b"default",
            Some(bytes) => bytes.as_slice(),
        }
    }

    /// The same bytes once more, which are not copied.
    pub(crate) fn share(&self) -> Result<NameBytes, AllocError>
        ensures { IfOk result (λ n. n ≡ self.now) }
    {
        let own = match &self.own {
            None => None,
            Some(bytes) => Some(bytes.share()?),
        };
        Ok(NameBytes { own })
    }
}

impl PartialEq for NameBytes {
    ghost eq = { pointwise nat_eq };

    ghost laws = { partial_equiv_from_equiv nat_list_eq_equiv };

    fn eq(&self, other: &Self) -> bool {
        match (&self.own, &other.own) {
            (None, None) => true,
            _ => self.as_slice() == other.as_slice(),
        }
    }
}

impl Eq for NameBytes {
    ghost laws = { nat_list_eq_equiv };
}

impl PartialOrd for NameBytes {
    ghost partial_cmp = { λ x y. Some (slice_cmp nat_cmp x y) };

    ghost laws = { texts_po };

    fn partial_cmp(&self, other: &Self) -> Option<Ordering> {
        Some(self.cmp(other))
    }
}

impl Ord for NameBytes {
    ghost cmp = { slice_cmp nat_cmp };

    ghost total = { nat_list_cmp_total };

    ghost matches_partial_cmp = { λ x y. refl };

    ghost matches_eq = { texts_ties };

    fn cmp(&self, other: &Self) -> Ordering {
        match (&self.own, &other.own) {
            (None, None) => Ordering::Equal,
            _ => self.as_slice().cmp(other.as_slice()),
        }
    }
}

impl Hash for NameBytes {
    ghost hash_input = { fed.slice fed.u8 };

    ghost respects_eq = { Prim.search (hashing, rules) };

    fn hash<H: Hasher>(&self, state: &mut H) {
        self.as_slice().hash(state);
    }
}
