//! Which names a report is about.
//!
//! Promise: a filter answers true exactly on the names that its rule picks.
ghost use Rattle.std.specs.Prelude.{◌≡◌, ℕ, Bool, List};
ghost use Rattle.std.specs.Fn.{FnReturnsAt};

use nofs_dirent::Name;

/// A rule that picks names. Its meaning is which ones.
pub trait NameRule {
    /// Whether the rule picks a name.
    ghost picks: { Self → List ℕ → Bool };
}

/// Every name.
#[derive(Clone, Copy, Debug, Drop)]
pub struct All;

impl NameRule for All {
    ghost use Rattle.std.specs.Prelude.{true};

    ghost picks = { λ rule name. true };
}

/// The names that begin with these bytes.
#[derive(Debug, Drop)]
pub struct Prefix {
    pub bytes: Name,
}

impl NameRule for Prefix {
    ghost use Rattle.nofs_salvage.specs.Report.Filter.{begins_with};

    ghost picks = { λ rule name. begins_with rule.bytes name };
}

/// A closure with the rule that it decides. That it may be called on all bytes, and answers true exactly on the names
/// that the rule picks, is asked where a filter is made and where one is used: a fact about a closure can't be kept in
/// a type.
#[derive(Drop)]
pub struct NameFilter<P, R> {
    pub keep: P,
    pub rule: R,
}

impl<P: Fn(&[u8]) -> bool, R: NameRule> NameFilter<P, R> {
    /// A filter. It takes no memory.
    pub fn new(keep: P, rule: R) -> Self
        requires may { P.IsAlwaysCallable keep }
        requires decides { (name : List ℕ) (yes : Bool) → FnReturnsAt P.Fn keep name yes → yes ≡ R.picks rule name }
        ensures { (result.keep ≡ keep) × (result.rule ≡ rule) }
    {
        NameFilter { keep, rule }
    }

    /// Whether the rule picks a name. It takes no memory.
    pub fn picks(&self, name: &[u8]) -> bool
        requires may { P.IsAlwaysCallable self.now.keep }
        requires decides { (name : List ℕ) (yes : Bool) → FnReturnsAt P.Fn self.now.keep name yes
            → yes ≡ R.picks self.now.rule name }
        ensures { result ≡ R.picks self.now.rule name.now }
    {
        (self.keep)(name)
    }
}
