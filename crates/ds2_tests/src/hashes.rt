//! Hash objects go from thread to thread.
use ds2_hash::{HashKey, HashObject};

// Machines on several threads hold such objects.
fn may_be_shared<T: Send + Sync>(_shared: &T) {}

#[test]
fn objects_may_be_shared(rt: HostRuntime) {
    may_be_shared(&HashObject::open(rt.alloc(), HashKey::new()));
}
