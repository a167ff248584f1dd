//! What hash objects hash by.

use std::hash::{BuildHasher, DefaultHasher, Hasher};

/// The key of a run's hashes: a digest of what the run reads, so that whoever changes what it reads changes the hashes. Each hash begins
/// with it.
#[derive(Clone, Copy)]
pub struct HashKey {
    begun: DefaultHasher,
}

// Reads the two words that another hasher has come to.
fn read_words(hasher: DefaultHasher, of: DefaultHasher) -> DefaultHasher {
    let mut read = hasher;
    let mut more = of;
    more.write_u8(1);
    read.write_u64(of.finish());
    read.write_u64(more.finish());
    read
}

// The key that a hasher has come to. Its hashes begin behind whole words.
fn key_of(hasher: DefaultHasher) -> HashKey {
    HashKey {
        begun: read_words(DefaultHasher::new(), hasher),
    }
}

impl HashKey {
    /// The key of nothing.
    pub fn new() -> HashKey {
        HashKey {
            begun: DefaultHasher::new(),
        }
    }

    /// The key of what this is the key of, with these bytes.
    pub fn with(&self, bytes: &[u8]) -> HashKey {
        let mut hasher = self.begun;
        hasher.write(bytes);
        key_of(hasher)
    }

    /// The key of what this and the other are the keys of.
    pub fn and(&self, other: &HashKey) -> HashKey {
        key_of(read_words(self.begun, other.begun))
    }
}

impl BuildHasher for HashKey {
    type Hasher = DefaultHasher;

    ghost build_hasher = { λ key. key.begun };

    fn build_hasher(&self) -> DefaultHasher {
        self.begun
    }
}
