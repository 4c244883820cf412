// The table of a text's lines: counted first, so that a refused call changes no entry.
ghost use Rattle.std.specs.Prelude.{◌≡◌, ℕ, ◌*◌, ◌≤◌, length};
ghost use Rattle.lines.specs.Lines.{lines};
ghost use Rattle.lines.specs.Tables.{table_number, tabled_number, tabled_count, table_with, table_answer, table_after};

use crate::TableRefusal;
use crate::cutting::next_line;

impl TableRefusal {
    pub fn number(self) -> u64
        ensures { result ≡ table_number self }
    {
        self as u64
    }
}

// How many lines the table has, or why it is as it was: told as two numbers.
pub trait Tabled {
    ghost number_of: { Self → ℕ };

    ghost count_of: { Self → ℕ };

    fn number(self) -> u64
        ensures { result ≡ number_of self };

    // How many lines; 0 where it is refused.
    fn count(self) -> usize
        ensures { result ≡ count_of self };
}

impl Tabled for Result<usize, TableRefusal> {
    ghost number_of = { tabled_number };

    ghost count_of = { tabled_count };

    fn number(self) -> u64 {
        match self {
            Ok(_) => 0,
            Err(why) => why.number(),
        }
    }

    fn count(self) -> usize {
        self.unwrap_or(0)
    }
}

fn count_lines(text: &[u8]) -> usize
    requires { length text.now ≤ 16777216 }
    ensures { result ≡ length (lines text.now) }
{
    let mut count = 0;
    let mut at = 0;
    while let Some(line) = next_line(text, at) {
        count += 1;
        at = line.end + 1;
    }
    count
}

// By index: no clause of `chunks_exact_mut` or `as_chunks_mut` says what the slice ends as.
fn fill_table(text: &[u8], table: &mut [usize])
    requires { (length text.now ≤ 16777216) × (2 * length (lines text.now) ≤ length table.old) }
    ensures { table.new ≡ table_with (lines text.now) table.old }
{
    let mut i = 0;
    let mut at = 0;
    while let Some(line) = next_line(text, at) {
        table[i] = line.start;
        table[i + 1] = line.end;
        i += 2;
        at = line.end + 1;
    }
}

// Cuts a text into its lines: the start and the end of each, two numbers of the table; those behind stay.
#[tactic(auto, unfolding(crate::specs::Tables::table_answer, crate::specs::Tables::table_after))]
pub fn cut_lines(text: &[u8], table: &mut [usize]) -> Result<usize, TableRefusal>
    ensures value { result ≡ table_answer text.now table.old }
    ensures table_after { table.new ≡ table_after text.now table.old }
{
    if text.is_empty() {
        return Err(TableRefusal::Empty);
    }
    if 16777216 < text.len() {
        return Err(TableRefusal::TooLong);
    }
    let count = count_lines(text);
    if table.len() / 2 < count {
        return Err(TableRefusal::ManyLines);
    }
    fill_table(text, table);
    Ok(count)
}
