//! The words of members that lie beside one another, as an exact search goes over them.
ghost use Rattle.std.specs.Prelude.{◌≡◌, ◌*◌, ◌<◌, ◌≤◌, ℕ, length};
ghost use Rattle.vs_truth.specs.Nearest.{row_of_run};

/// Rows of words of one width, one after another: each is a member's.
#[derive(Drop)]
pub struct Run<'a> {
    // how many words a row has
    pub width: usize,
    pub rows: u32,
    pub words: &'a [u64],
}

impl<'a> Run<'a> {
    /// No rows.
    pub fn none() -> Run<'a>
        ensures { result.rows ≡ 0 }
    {
        Run {
            width: 0,
            rows: 0,
            words: &[],
        }
    }

    /// These words as one row.
    pub fn one(words: &'a [u64]) -> Run<'a>
        ensures rows { result.rows ≡ 1 }
        ensures width { result.width ≡ length words.now }
        ensures words { result.words.now ≡ words.now }
    {
        Run {
            width: words.len(),
            rows: 1,
            words,
        }
    }

    /// The words of a row.
    pub fn row(&self, row: u32) -> &[u64]
        requires inside { row < self.now.rows }
        requires long { self.now.rows * self.now.width ≤ length self.now.words.now }
        ensures { result.now ≡ row_of_run self.now row }
    {
        let start = row as usize * self.width;
        &self.words[start..start + self.width]
    }
}
