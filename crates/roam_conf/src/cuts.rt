//! The cuts in the text of a list of attributes to remove.

ghost use Rattle.std.specs.Prelude.{◌≡◌, MatchOption, [], ◌∷◌};
ghost use Rattle.roam_conf.specs.Texts.{parts};

/// Returns what stands before the first dot, and after it.
pub(crate) fn cut_at_dot(text: &str) -> Option<(&str, &str)>
    ensures { MatchOption result (parts 46 text.now ≡ text.now ∷ [])
        (λ cut. parts 46 text.now ≡ cut.0.now ∷ parts 46 cut.1.now) }
{
    text.split_once('.')
}
