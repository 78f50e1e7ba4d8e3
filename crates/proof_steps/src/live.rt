// Rows that go by numbers.
ghost use Rattle.std.specs.Prelude.{◌≡◌, List};
ghost use Rattle.std.specs.Option.{option_copied};
ghost use Rattle.pb_rows.specs.Formula.{NumberedRow, row_of};

use hrt_base::RowNo;
use pb_rows::Row;

/// The live rows of a proof, of which each goes by its number.
pub trait LiveRows {
    /// The rows with their numbers.
    ghost rows: { Self → List NumberedRow };

    /// The row of a number, if one is live.
    fn row_of(&self, id: RowNo) -> Option<&Row>
        ensures { option_copied result ≡ row_of id.0 (rows self.now) };
}
