// The calls over a text of lines.
use crate::calls::Trial;
use crate::input::Head;
use crate::telling::{digest_of, tell, tell_two};
use lines::cutting::next_line;
use lines::indexing::index_line;
use lines::table::{Tabled, cut_lines};
use query::types::Part;
use std::io;
use std::io::{Read, Write};

impl<R: Read, W: Write> Trial<R, W> {
    // The table of the text.
    pub fn cut(&mut self, text: &[u8], table: &mut [usize]) -> io::Result<()> {
        let tabled = cut_lines(text, table);
        tell(&mut self.out, tabled.number(), tabled.count())?;
        self.digest = digest_of(self.digest, table.iter().map(|&number| number as u64));
        Ok(())
    }

    // One line of it.
    pub fn index_one(
        &mut self,
        head: Head,
        text: &[u8],
        words: &mut [u64],
        table: &[usize],
    ) -> io::Result<()> {
        let answer = index_line(text, table, head.value as usize, words, head.levels);
        tell_two(
            &mut self.out,
            answer.number(),
            answer.place(),
            answer.line(),
        )?;
        self.digest = digest_of(self.digest, words.iter().copied());
        Ok(())
    }

    // The next line, or none, as 0 and 0.
    pub fn next_one(&mut self, text: &[u8], from: usize) -> io::Result<()> {
        let line = next_line(text, from).unwrap_or(Part { start: 0, end: 0 });
        tell_two(&mut self.out, 0, line.start, line.end)
    }
}
