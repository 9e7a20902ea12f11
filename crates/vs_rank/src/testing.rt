//! Tests of attributes as a trait, so that a struct can cite what a closure answers.
ghost use Rattle.std.specs.Prelude.{Bool, true, IsTrue};
ghost use Rattle.std.specs.Option.{option_copied};
ghost use Rattle.vs_rank.specs.Tests.{Attribute, GivesAt};

/// A test of attributes; each closure over an attribute, present or absent, is one.
pub trait Testing {
    ghost ready: { Self → Type 0 };

    ghost gives: { Self → Attribute → Bool → Type 0 };

    fn test(&self, attr: Option<&[u8]>) -> bool
        requires { ready self.now }
        ensures { gives self.now (option_copied attr.entry) result };

    /// Whether it is known that all pass, so that no attribute has to be looked at.
    fn is_everyone(&self) -> bool
        ensures { IsTrue result → (attr : Attribute) → gives self.now attr true };
}

impl<F: Fn(Option<&[u8]>) -> bool> Testing for F {
    ghost ready = { λ f. F.IsAlwaysCallable f };

    ghost gives = { λ f. GivesAt (F.post f) };

    fn test(&self, attr: Option<&[u8]>) -> bool {
        self(attr)
    }

    fn is_everyone(&self) -> bool {
        false
    }
}

/// The test that all pass.
#[derive(Clone, Copy, Drop)]
pub struct Everyone;

impl Testing for Everyone {
    ghost use Rattle.std.specs.Prelude.{◌≡◌, true};

    ghost ready = { λ _. Unit {0} };

    ghost gives = { λ _ _ answer. answer ≡ true };

    fn test(&self, _attr: Option<&[u8]>) -> bool {
        true
    }

    fn is_everyone(&self) -> bool {
        true
    }
}
