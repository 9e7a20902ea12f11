//! Why a text is no filter.
ghost use Rattle.std.specs.Prelude.{◌≡◌};
ghost use Rattle.vs_filter.specs.declared.error.FilterError.TheVariants.{NoMemory};

use std::alloc::AllocError;

#[derive(Debug, Drop)]
pub enum FilterError {
    NoMemory,
    /// The offset of the first token by which the tokens so far begin no filter, or the text's length where it ends too early.
    Syntax { at: u32 },
    /// The offset of the first token that would open a 65th parenthesis, negation or minus sign at once.
    TooDeep { at: u32 },
}

impl From<AllocError> for FilterError {
    ghost from_gives = { λ _ e. e ≡ NoMemory };

    fn from(_refused: AllocError) -> FilterError {
        FilterError::NoMemory
    }
}
