ghost use Rattle.std.specs.Prelude.{◌≡◌};
ghost use Rattle.linktable.specs.Links.{place_of, added, quoted, taken_by, removed, performed, listed};
ghost use Rattle.std.specs.List.{slice_get};

use commands::answers::{Answer, Line};
use commands::command::Command;
use keys::nodes::Account;
use keys::refusals::Refusal;
use keys::weights::Price;
use table::table::{Table, Taken};

/// The links by their two accounts, each with its price.
pub type Links<'a> = Table<'a, (Account, Account), Price>;

fn add(links: &mut Links<'_>, from: Account, to: Account, price: Price) -> Answer
    ensures done { (result, links.new.entries) ≡ added links.old.room links.old.entries from to price (place_of links.old.entries from to) }
    ensures room { links.new.room ≡ links.old.room }
{
    match links.find(&(from, to)) {
        Ok(place) => links
            .set_value(place, price)
            .map_or(Answer::Nothing, |price| Answer::Replaced { price }),
        Err(w) => links.append((from, to), price, w).map_or(
            Answer::Refused(Refusal::LinksFull),
            |place| Answer::New { place },
        ),
    }
}

fn quote(links: &Links<'_>, from: Account, to: Account) -> Answer
    ensures { result ≡ quoted links.now.entries (place_of links.now.entries from to) }
{
    match links.find(&(from, to)) {
        Ok(place) => Answer::Quoted {
            price: links.value_at(place),
            place,
        },
        Err(_) => Answer::Nothing,
    }
}

// Takes the link out of the table, where it is there.
fn take(
    links: &mut Links<'_>,
    from: Account,
    to: Account,
) -> Option<Taken<(Account, Account), Price>>
    ensures done { (result, links.new.entries) ≡ taken_by links.old.entries (place_of links.old.entries from to) }
    ensures room { links.new.room ≡ links.old.room }
{
    let place = links.find(&(from, to)).ok()?;
    links.swap_remove(place)
}

fn remove(links: &mut Links<'_>, from: Account, to: Account) -> Answer
    ensures done { (result, links.new.entries) ≡ removed links.old.entries (place_of links.old.entries from to) }
    ensures room { links.new.room ≡ links.old.room }
{
    take(links, from, to).map_or(
        Answer::Nothing,
        |taken| Answer::Removed {
            price: taken.entry.1,
            gap: taken.gap,
            moved: (taken.last != taken.gap).then_some(taken.last),
        },
    )
}

/// Carries out a command: its answer, and the links then.
pub fn perform(links: &mut Links<'_>, command: Command) -> Answer
    ensures done { (result, links.new.entries) ≡ performed links.old.room links.old.entries command }
    ensures room { links.new.room ≡ links.old.room }
{
    match command {
        Command::Add { from, to, price } => add(links, from, to, price),
        Command::Quote { from, to } => quote(links, from, to),
        Command::Remove { from, to } => remove(links, from, to),
        Command::List => Answer::Listed { count: links.len() },
        Command::Clear => {
            let count = links.len();
            links.clear();
            Answer::Cleared { count }
        }
    }
}

/// The link at a place as a line of the list; none from the end on.
pub fn line_at(links: &Links<'_>, place: usize) -> Option<Line>
    ensures { result ≡ listed place (slice_get links.now.entries place) }
{
    let link = links.as_slice().get(place)?;
    let (from, to) = link.key;
    Some(Line {
        place,
        from,
        to,
        price: link.value,
    })
}
