//! Sources of keys, as boxed objects that are handed in.
ghost use Rattle.std.specs.Prelude.{◌≡◌, ℕ, Bool, List, Option, IfErr, IfOk, IfSome, OnErr, OnOk, is_err};
ghost use Rattle.zed_host.specs.Counting.{Counts};
ghost use Rattle.zed_session.specs.Devices.{Foretold, first_of, without_first};

use crate::error::SessionError;
use crate::screen::DeviceFailed;
use zed_play::Key;

/// A source of keys, which come one after the other.
pub trait Keys: Drop {
    ghost use Rattle.zed_play.specs.declared.key.Key.{Key};

    /// The keys that are left, or none if it doesn't say.
    ghost left: { Self → Option (List Key) };

    /// How many calls of `next` failed.
    ghost key_failures: { Self → ℕ };

    /// Which of the next calls of `next` fail, one after the other, and none after these; or none
    /// if it doesn't say.
    ghost keys_foretell: { Self → Option (List Bool) };

    /// The next key, or None if no more come. If that fails, no key is taken.
    fn next(&mut self) -> Result<Option<Key>, DeviceFailed>
        ensures key { IfOk result (λ key. IfSome (left self.old) (λ keys. key ≡ first_of keys)) }
        ensures ok { OnOk result (left self.new ≡ without_first (left self.old)) }
        ensures err { OnErr result (left self.new ≡ left self.old) }
        ensures failures { Counts (is_err result) (key_failures self.old) (key_failures self.new) }
        ensures foretold { Foretold (is_err result)
            (keys_foretell self.old) (keys_foretell self.new) };

    /// How many calls of `next` failed, up to the greatest `u64`.
    fn failures(&self) -> u64
        ensures { result ≡ key_failures self.now };
}

/// The next key of a source.
pub(crate) fn next_of(keys: &mut dyn Keys) -> Result<Option<Key>, SessionError>
    ensures key { IfOk result (λ key. IfSome (left keys.old) (λ told. key ≡ first_of told)) }
    ensures ok { OnOk result (left keys.new ≡ without_first (left keys.old)) }
    ensures kept { OnErr result (left keys.new ≡ left keys.old) }
    ensures err { IfErr result (λ e. e ≡ SessionError.KeyFault) }
    ensures failures { Counts (is_err result) (key_failures keys.old) (key_failures keys.new) }
    ensures foretold { Foretold (is_err result) (keys_foretell keys.old) (keys_foretell keys.new) }
{
    match keys.next() {
        Ok(key) => Ok(key),
        Err(DeviceFailed) => Err(SessionError::KeyFault),
    }
}
