//! Rows that are within the limits of fan files. The functions compute nothing.
ghost use Rattle.std.specs.Prelude.{◌≤◌, All, unsigned_abs};
ghost use Rattle.gf_gordan.specs.Alternative.{AreRows};
ghost use Rattle.gf_fan_files.specs.RowText.{most_row_entry};
ghost use Rattle.gf_fan_files.specs.FansAgain.{AreWritable};

use gf_vec::IntVec;

/// The entries of a vector are within the limit of rows.
fn entries_are_within(row: &IntVec)
    ensures { All (λ z. unsigned_abs z ≤ most_row_entry) row.now }
{
    let _entries = row.as_slice();
}

/// Rows of this length can be written.
pub(crate) fn rows_are_writable(n: u32, rows: &[IntVec])
    requires { AreRows n rows.now }
    ensures { AreWritable n rows.now }
{
    'rows: for row in rows {
        entries_are_within(row);
    }
}
