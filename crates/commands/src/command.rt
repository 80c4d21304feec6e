use keys::nodes::Account;
use keys::weights::Price;

// What a line asks for.
#[derive(Clone, Copy)]
pub enum Command {
    Add {
        from: Account,
        to: Account,
        price: Price,
    },
    Quote {
        from: Account,
        to: Account,
    },
    Remove {
        from: Account,
        to: Account,
    },
    List,
    Clear,
}
