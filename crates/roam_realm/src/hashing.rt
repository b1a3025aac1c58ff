//! The key of the hashes of a broker's maps.

ghost use Rattle.std.specs.Prelude.{◌≡◌};
ghost use Rattle.roam_conf.specs.Shown.{shown};
ghost use Rattle.roam_crypto.specs.Keyed.{keyed};
ghost use Rattle.roam_realm.specs.declared.hashing.TheConstants.{HASH_STREAM};
ghost use Rattle.roam_crypto.specs.RandomWords.{request_authenticator_at};

use roam_conf::Config;
use roam_crypto::{HashKey, request_authenticator};

/// The stream of random words from which the key of hashes is: no realm's, whose streams are their indexes.
pub const HASH_STREAM: u64 = 1 << 32;

/// Returns what keys the hashes of a broker's maps: the first words of a stream of its seed that no realm draws from.
pub fn hash_key(config: &Config) -> HashKey
    ensures { result ≡ keyed (request_authenticator_at (shown config.now).seed HASH_STREAM 0) }
{
    HashKey::new(request_authenticator(config.top.seed, HASH_STREAM, 0))
}
