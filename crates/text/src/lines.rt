// A line as it was read ends in a newline, but for the last of an input.
ghost use Rattle.std.specs.Prelude.{◌≡◌};
ghost use Rattle.text.specs.Lines.{chopped};

pub fn without_newline(line: &[u8]) -> &[u8]
    ensures { result.now ≡ chopped line.now }
{
    line.strip_suffix(b"\n").unwrap_or(line)
}
