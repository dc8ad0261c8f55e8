//! Numbers of rows, by which rows are gathered.

/// A number that names a row.
pub trait RowNumber: Copy + Drop {
    ghost use Rattle.std.specs.Prelude.{◌≡◌, ℕ};

    /// The row that it names.
    ghost place: { Self → ℕ };

    /// The row that it names.
    fn place(self) -> usize
        ensures { result ≡ place self };
}

impl RowNumber for u32 {
    ghost place = { λ row. row };

    fn place(self) -> usize {
        self as usize
    }
}

impl RowNumber for usize {
    ghost place = { λ row. row };

    fn place(self) -> usize {
        self
    }
}
