// An input is cut into lines.
ghost use Rattle.std.specs.Prelude.{◌≡◌, ◌+◌, ◌<◌, ◌≤◌, length};

// A line with its line feed, if it has one, and its number.
#[derive(Clone, Copy)]
pub(super) struct Line<'a> {
    pub number: usize,
    pub bytes: &'a [u8],
}

// The lines that are left of an input, and the number of the first of them. There are no more lines than bytes, so each can be
// numbered.
#[derive(Drop)]
pub(super) struct Lines<'a> {
    pub rest: &'a [u8],
    pub number: usize,
    ghost counted: { number + length rest.now ≤ 65537 },
}

impl<'a> Iterator for Lines<'a> {
    ghost use Rattle.std.specs.Iterator.{at_most};
    ghost use Rattle.desk.specs.Cuts.{LineCut};

    type Item = Line<'a>;

    ghost next_gives = { λ before line after. LineCut before.number before.rest.now line after.number after.rest.now };

    ghost remaining = { λ lines. at_most (length lines.rest.now) };

    fn next(&mut self) -> Option<Line<'a>> {
        let bytes = self.rest.split_inclusive(|b| *b == b'\n').next()?;
        let line = Line {
            number: self.number,
            bytes,
        };
        self.rest = &self.rest[bytes.len()..];
        self.number += 1;
        Some(line)
    }
}
