//! The equality of two configurations.

use crate::Config;

impl Config {
    ghost use Rattle.std.specs.Prelude.{◌≡◌, ◌↔◌, IsTrue};
    ghost use Rattle.roam_conf.specs.Shown.{shown};

    /// Returns whether the two are equal, as by `==`: in each value of the document.
    pub fn is_same(&self, other: &Config) -> bool
        ensures { IsTrue result ↔ (shown self.now ≡ shown other.now) }
    {
        self == other
    }
}
