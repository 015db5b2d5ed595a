// The rows that the host sends, as they are lent: two lists of numbers, side by side.

ghost use Rattle.std.specs.Prelude.{◌≡◌, ◌*◌, ◌≤◌, length};
ghost use Rattle.score.specs.Rows.{rows_of};

// Four numbers and a flag for each row.
#[derive(Clone, Copy)]
pub struct Rows<'a> {
    pub numbers: &'a [f64],
    pub flags: &'a [u8],
    ghost fours: { length numbers.now ≡ 4 * length flags.now },
}

// At most 16 rows, side by side.
#[derive(Clone, Copy)]
pub struct Block<'a> {
    pub rows: Rows<'a>,
    ghost few: { length rows.flags.now ≤ 16 },
}

// The rows of two lists, cut to where one of the lists ends.
#[tactic(auto, using(crate::proofs::Steps::rows_of_lists_cut_to_fewer))]
pub fn rows_of<'a>(numbers: &'a [f64], flags: &'a [u8]) -> Rows<'a>
    ensures { rows_of result.numbers.now result.flags.now ≡ rows_of numbers.now flags.now }
{
    let n = (numbers.len() / 4).min(flags.len());
    Rows {
        numbers: &numbers[..4 * n],
        flags: &flags[..n],
    }
}
