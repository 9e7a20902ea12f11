//! A test of attributes beside the predicate that it answers.
ghost use Rattle.std.specs.Prelude.{◌≡◌, Bool, true, IsTrue};
ghost use Rattle.std.specs.Option.{option_copied};
ghost use mathlib.Core.HProp.{IsProp-prop};
ghost use Rattle.vs_rank.specs.Tests.{Attribute, Answers, AnswersOne};

use crate::Testing;

/// A test beside the fact that it answers one predicate on every attribute, present or absent.
#[derive(Drop)]
pub struct Wanted<F: Testing> {
    test: F,
    ghost single: { IsProp (F.ready test) } by { IsProp-prop },
    ghost callable: { F.ready test } by { single },
    ghost answers: { AnswersOne (F.gives test) },
}

impl<F: Testing> Wanted<F> {
    pub fn new(test: F) -> Wanted<F>
        requires single { IsProp (F.ready test) }
        requires callable { F.ready test }
        requires answers { AnswersOne (F.gives test) }
        ensures { result.test ≡ test }
    {
        Wanted { test }
    }

    pub fn passes(&self, attr: Option<&[u8]>) -> bool
        ensures { (passes : Attribute → Bool) → Answers (F.gives self.now.test) passes → result ≡ passes (option_copied attr.entry) }
    {
        self.test.test(attr)
    }

    /// Whether all are known to pass, so that no attribute has to be looked at.
    pub fn is_everyone(&self) -> bool
        ensures { IsTrue result → (passes : Attribute → Bool) → Answers (F.gives self.now.test) passes → (attr : Attribute) → passes attr ≡ true }
    {
        self.test.is_everyone()
    }
}
