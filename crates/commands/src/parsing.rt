// A line is read from left to right, and the first fault is told.
ghost use Rattle.std.specs.Prelude.{◌≡◌};
ghost use Rattle.commands.specs.Commands.{rest_of, leaving, next_number, next_key, next_link, next_price, at_end, asked, parsed};

use crate::command::Command;
use crate::faults::Fault;
use keys::nodes::Account;
use keys::weights::Price;
use text::numbers::number;
use text::words::Words;

// The words that follow the first of a line.
#[derive(Drop)]
struct Arguments<'a> {
    words: Words<'a>,
}

impl<'a> Arguments<'a> {
    fn number(&mut self) -> Result<u32, Fault>
        ensures { leaving result (rest_of self.new) ≡ next_number (rest_of self.old) }
    {
        let word = self.words.next().ok_or(Fault::MissingWord)?;
        Ok(number(word)?)
    }

    fn account(&mut self) -> Result<Account, Fault>
        ensures { leaving result (rest_of self.new) ≡ next_key (rest_of self.old) }
    {
        self.number().map(Account)
    }

    fn price(&mut self) -> Result<Price, Fault>
        ensures { leaving result (rest_of self.new) ≡ next_price (rest_of self.old) }
    {
        self.number().map(Price)
    }

    fn link(&mut self) -> Result<(Account, Account), Fault>
        ensures { leaving result (rest_of self.new) ≡ next_link (rest_of self.old) }
    {
        let from = self.account()?;
        let to = self.account()?;
        Ok((from, to))
    }

    // The line ends here.
    fn end(&mut self) -> Result<(), Fault>
        ensures { result ≡ at_end (rest_of self.old) }
    {
        self.words
            .next()
            .map_or(Ok(()), |_| Err(Fault::SurplusWord))
    }

    // What is asked for by the first word of the line.
    fn command(mut self, word: &[u8]) -> Result<Command, Fault>
        ensures { result ≡ asked word.now (rest_of self.entry) }
    {
        let command = match word {
            b"add" => {
                let (from, to) = self.link()?;
                let price = self.price()?;
                Command::Add { from, to, price }
            }
            b"price" => {
                let (from, to) = self.link()?;
                Command::Quote { from, to }
            }
            b"remove" => {
                let (from, to) = self.link()?;
                Command::Remove { from, to }
            }
            b"list" => Command::List,
            b"clear" => Command::Clear,
            _ => return Err(Fault::UnknownWord),
        };
        self.end()?;
        Ok(command)
    }
}

// What the line asks for; nothing where it has no word, or begins with `#`.
pub fn parse(line: &[u8]) -> Result<Option<Command>, Fault>
    ensures { result ≡ parsed line.now }
{
    if line.starts_with(b"#") {
        return Ok(None);
    }
    let mut words = Words::new(line);
    // An early return: a closure after `map` would capture the words that follow.
    let Some(word) = words.next() else {
        return Ok(None);
    };
    Arguments { words }.command(word).map(Some)
}

#[cfg(test)]
mod tests {
    use super::*;

    #[test]
    fn commands_and_remarks(rt: HostRuntime) {
        assert!(rt;
            matches!(
                parse(b" add 7\t9 500\r"),
                Ok(Some(Command::Add {
                    from: Account(7),
                    to: Account(9),
                    price: Price(500),
                })),
            )
        );
        assert!(rt; matches!(parse(b"#add 7"), Ok(None)));
        assert!(rt; matches!(parse(b" \r"), Ok(None)));
    }

    #[test]
    fn first_fault(rt: HostRuntime) {
        assert!(rt; matches!(parse(b"add x 4294967296"), Err(Fault::NotANumber)));
        assert!(rt; matches!(parse(b"add 4294967296 x"), Err(Fault::NumberOver32Bits)));
        assert!(rt; matches!(parse(b"list x"), Err(Fault::SurplusWord)));
    }
}
