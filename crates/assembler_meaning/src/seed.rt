//! How the names of a source are hashed.
ghost use Rattle.std.specs.Prelude.{◌≡◌};
ghost use Rattle.std.specs.Hash.DefaultHasher.{initial, write};

use std::hash::{BuildHasher, DefaultHasher, Hasher};

/// Makes the hashers of a source's names: each goes on from the hash of the whole source. Names that collide in one
/// source don't collide in another, so no one can write a source full of names that are known to collide.
#[derive(Clone, Copy)]
pub struct SourceSeed {
    /// The hasher after all bytes of the source.
    pub source: DefaultHasher,
}

impl SourceSeed {
    /// The seed from which the names of this source are hashed, made of all its bytes, so that nobody can write a
    /// source of names that are known to collide.
    pub fn of(source: &[u8]) -> SourceSeed
        ensures { result.source ≡ write initial source.now }
    {
        let mut hasher = DefaultHasher::new();
        hasher.write(source);
        SourceSeed { source: hasher }
    }
}

impl BuildHasher for SourceSeed {
    type Hasher = DefaultHasher;

    ghost build_hasher = { λ seed. seed.source };

    /// A hasher for one of a source's names, which goes on from the hash of the whole source; the map of names asks for
    /// it.
    fn build_hasher(&self) -> DefaultHasher {
        self.source
    }
}
