// The study variable of each column of a file's first protein header, as the walk for weights asks for it.
#![tactic(auto)]

ghost use Rattle.std.specs.Prelude.{◌≤◌, length};
ghost use Rattle.text.specs.Lines.{LIMIT as limit};
ghost use Rattle.rows.specs.Rows.{header_of};
ghost use Rattle.weight_counts.specs.Variables.{PROTEIN as protein};
ghost use Rattle.weight_marks.specs.Marks.{Marked};

use column_marks::{Asked, Marks};

// The marks of the first protein header, each column's its study variable; none where there is no header.
pub fn marks_of(file: &[u8]) -> Marks
    requires { length file.now ≤ limit }
    ensures { Marked (header_of file.now protein) result }
{
    column_marks::marks_of(file, Asked::Variables)
}
