//! The names that a script exports and binds to.

ghost use Rattle.std.specs.Prelude.{◌≡◌};
ghost use Rattle.replay_model.specs.World as model;

use binder::{InterfaceName, Name, read_name};

/// The name of the test service's instance: the names of a script are instances of one type.
pub fn test_name(instance: &Name) -> InterfaceName
    ensures { result ≡ model.test_name instance.now }
{
    InterfaceName {
        kind: read_name(b"Test").unwrap(),
        instance: *instance,
    }
}
