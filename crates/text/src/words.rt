// A line is cut into words: the longest runs of bytes that are no blanks.
ghost use Rattle.std.specs.Prelude.{◌≡◌, length};
ghost use Rattle.std.specs.Iterator.{at_most};
ghost use Rattle.text.specs.Words.{blank, TakesWord, left};

fn is_blank(b: u8) -> bool
    ensures { result ≡ blank b }
{
    matches!(b, b' ' | b'\t' | b'\r')
}

// The words of a line, from left to right.
#[derive(Clone, Drop)]
pub struct Words<'a> {
    rest: &'a [u8],
}

impl<'a> Words<'a> {
    pub fn new(line: &'a [u8]) -> Words<'a>
        ensures { left result ≡ line.now }
    {
        Words { rest: line }
    }

    // What follows the words that were taken.
    pub fn rest(&self) -> &'a [u8]
        ensures { result.now ≡ left self.now }
    {
        &self.rest[..]
    }
}

impl<'a> Iterator for Words<'a> {
    type Item = &'a [u8];

    ghost next_gives = { λ s word t. TakesWord s word t };

    ghost remaining = { λ s. at_most (length s.rest.now) };

    fn next(&mut self) -> Option<&'a [u8]> {
        let start = self.rest.iter().position(|b| !is_blank(*b))?;
        let line = &self.rest[start..];
        let end = line.iter().position(|b| is_blank(*b)).unwrap_or(line.len());
        let (word, rest) = line.split_at(end);
        self.rest = rest;
        Some(word)
    }
}

#[cfg(test)]
mod tests {
    use super::*;
    use std::test::Fail;

    #[test]
    fn first_word(rt: HostRuntime) -> Result<(), Fail> {
        let mut words = Words::new(b"\t add 7\r");
        let word = words.next().ok_or("no word")?;
        assert!(rt; word == b"add".as_slice());
        assert!(rt; words.rest == b" 7\r".as_slice());
        assert!(rt; Words::new(b" \t\r").next().is_none());
        Ok(())
    }
}
