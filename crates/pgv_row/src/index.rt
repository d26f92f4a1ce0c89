//! Which column is meant: by its place or by its name.

ghost use Rattle.std.specs.Prelude.{◌≡◌, ℕ, List, Option, length};
ghost use Rattle.pgv_row.specs.ColumnView.{Column};
ghost use Rattle.pgv_row.specs.RowView.{place_at, place_named};

use crate::column::PgColumn;

/// What a column is asked for by: its place, as `usize`, or its name, as `&str`.
pub trait ColumnIndex: Copy {
    /// The place of the column that is meant, where there is one.
    ghost place: { Self → List Column → Option ℕ };

    /// The place that a refusal has where no column is meant.
    ghost missing: { Self → List Column → ℕ };

    /// The place of the column that is meant, where there is one.
    fn index(&self, columns: &[PgColumn<'_>]) -> Option<usize>
        ensures { result ≡ place self.now columns.now };

    /// The place that a refusal has where no column is meant.
    fn missing_place(&self, columns: &[PgColumn<'_>]) -> usize
        ensures { result ≡ missing self.now columns.now };
}

/// The column at a place, from 0 on.
impl ColumnIndex for usize {
    ghost place = { place_at };

    ghost missing = { λ place columns. place };

    #[inline(always)]
    fn index(&self, columns: &[PgColumn<'_>]) -> Option<usize> {
        let place = *self;
        if place < columns.len() {
            Some(place)
        } else {
            None
        }
    }

    fn missing_place(&self, _columns: &[PgColumn<'_>]) -> usize {
        *self
    }
}

/// The first column of a name, as in libpq and in JDBC. The refusal of a name that no column has names the number of
/// columns.
impl ColumnIndex for &str {
    ghost place = { λ name columns. place_named name.now columns };

    ghost missing = { λ name columns. length columns };

    fn index(&self, columns: &[PgColumn<'_>]) -> Option<usize> {
        let name: &str = *self;
        columns.iter().position(|column| column.name() == name)
    }

    fn missing_place(&self, columns: &[PgColumn<'_>]) -> usize {
        columns.len()
    }
}
