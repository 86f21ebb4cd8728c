// The text reader: the lines of a text, one after another. What is said of them stands in crates/text_lines/specs.
#![tactic(auto)]

ghost use Rattle.std.specs.Prelude.{◌≡◌, drop};
ghost use Rattle.std.specs.Iterator.{YieldsFirst, item_count};
ghost use Rattle.text_lines.specs.Reading.{lines_in};

use text_lines::Line;

/// The lent text, and the place of the next line.
#[derive(Clone, Copy)]
pub struct Reader<'a> {
    text: &'a [u8],
    at: usize,
}

impl<'a> Reader<'a> {
    /// At the text's first line.
    pub fn new(text: &'a [u8]) -> Reader<'a>
        ensures text { result.text ≡ text.entry }
        ensures first { result.at ≡ 0 }
    {
        Reader { text, at: 0 }
    }
}

impl<'a> Iterator for Reader<'a> {
    type Item = Line;

    ghost next_gives = { YieldsFirst (λ reader. lines_in (drop reader.at reader.text.now)) };

    ghost remaining = { item_count (λ reader. lines_in (drop reader.at reader.text.now)) };

    fn next(&mut self) -> Option<Line> {
        let rest = self.text.get(self.at..)?;
        let (line, next) = text_lines::first_line(rest)?;
        self.at += next;
        Some(line)
    }
}
