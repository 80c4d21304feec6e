// What is answered to a command, and how it is written.
ghost use Rattle.std.specs.Prelude.{Some};
ghost use Rattle.commands.specs.Shown.{answer_text, line_text};

use keys::nodes::Account;
use keys::refusals::Refusal;
use keys::weights::Price;
use std::fmt;

// The answer to a command.
#[derive(Clone, Copy)]
pub enum Answer {
    New {
        place: usize,
    },
    Replaced {
        price: Price,
    },
    Refused(Refusal),
    Quoted {
        price: Price,
        place: usize,
    },
    Nothing,
    // The entry of the place `moved` was put into the gap; none where the removed entry was the last.
    Removed {
        price: Price,
        gap: usize,
        moved: Option<usize>,
    },
    Listed {
        count: usize,
    },
    Cleared {
        count: usize,
    },
}

impl fmt::Display for Answer {
    ghost output = { λ x. Some (answer_text x) };

    fn fmt<W: fmt::Write>(&self, f: &mut fmt::Formatter<W>) -> fmt::Result {
        match *self {
            Answer::New { place } => write!(f, "new at place {place}"),
            Answer::Replaced { price } => write!(f, "replaced {}", price.0),
            Answer::Refused(refusal) => write!(f, "refused {}", refusal.number()),
            Answer::Quoted { price, place } => write!(f, "{} at place {place}", price.0),
            Answer::Nothing => f.write_str("nothing there"),
            // Nested: a pattern for each case of `moved` takes twice the lines.
            Answer::Removed { price, gap, moved } => match moved {
                Some(last) => write!(f, "removed {}, place {last} moved to place {gap}", price.0),
                None => write!(f, "removed {}, no gap", price.0),
            },
            Answer::Listed { count } => write!(f, "links: {count}"),
            Answer::Cleared { count } => write!(f, "cleared {count}"),
        }
    }
}

// One link of the list.
#[derive(Clone, Copy)]
pub struct Line {
    pub place: usize,
    pub from: Account,
    pub to: Account,
    pub price: Price,
}

impl fmt::Display for Line {
    ghost output = { λ x. Some (line_text x) };

    fn fmt<W: fmt::Write>(&self, f: &mut fmt::Formatter<W>) -> fmt::Result {
        write!(
            f,
            "place {}: {} {} {}",
            self.place, self.from.0, self.to.0, self.price.0
        )
    }
}

#[cfg(test)]
mod tests {
    use super::*;
    use std::test::Fail;

    #[test]
    fn written(rt: HostRuntime) -> Result<(), Fail> {
        let removed = Answer::Removed {
            price: Price(500),
            gap: 0,
            moved: Some(3),
        };
        let text = format!(in rt.alloc(); "{removed}")?;
        assert!(rt; text.as_str() == "removed 500, place 3 moved to place 0");
        Ok(())
    }
}
