// Times the table by the clock: nanoseconds for each operation. `tablebench run` takes the times; without a word it
// says how it is used.
#![tactic(auto)]

use keys::nodes::Account;
use keys::weights::Price;
use linktable::links::Links;
use std::env;
use std::time::Instant;
use table::slot::Slot;
use table::table::Table;

// How many operations are timed for each figure.
const OPERATIONS: u32 = 6_000_000;

// How the keys lie: accounts in blocks of consecutive numbers, or scattered over 32 bits.
#[derive(Clone, Copy)]
enum Keys {
    Consecutive,
    Scattered,
}

impl Keys {
    // The i-th key.
    fn key(self, i: u32) -> (Account, Account) {
        match self {
            Keys::Consecutive => (
                Account((i / 8).wrapping_add(1000)),
                Account(i.wrapping_add(2000)),
            ),
            Keys::Scattered => {
                let x = i.wrapping_mul(2_654_435_761) ^ (i >> 7);
                (
                    Account(x),
                    Account(x.wrapping_mul(2_246_822_519).wrapping_add(i)),
                )
            }
        }
    }

    // The i-th of n keys from the `first` on, in an order that jumps about.
    fn jumped(self, first: u32, i: u32, n: u32) -> (Account, Account) {
        self.key(first.wrapping_add(i.wrapping_mul(7919) % n.max(1)))
    }
}

// The nanoseconds of each kind of operation, summed over the rounds.
#[derive(Clone, Copy, Default)]
struct Times {
    fill: u128,
    hit: u128,
    miss: u128,
    remove: u128,
}

// What `work` answers. The nanoseconds that it takes are added to `total`.
fn timed<R: Copy, W: FnOnce() -> R>(
    rt: &HostRuntime,
    total: &mut u128,
    work: W,
) -> anyhow::Result<R>
    requires { W.IsAlwaysCallable work }
{
    let clock = Instant::now(rt)?;
    let answer = work();
    *total = total.saturating_add(clock.elapsed(rt)?.as_nanos());
    Ok(answer)
}

fn fill(t: &mut Links<'_>, keys: Keys, n: u32) {
    for i in 0..n {
        let k = keys.key(i);
        if let Err(w) = t.find(&k) {
            let _ = t.append(k, Price(i), w);
        }
    }
}

// Looks for n keys from the `first` on, and sums the places.
fn look(t: &Links<'_>, keys: Keys, first: u32, n: u32) -> usize {
    (0..n)
        .filter_map(|i| t.find(&keys.jumped(first, i, n)).ok())
        .fold(0, |sum: usize, place| sum.wrapping_add(place))
}

// Takes n keys out, and sums the places that were the last.
fn remove(t: &mut Links<'_>, keys: Keys, n: u32) -> usize {
    (0..n)
        .filter_map(|i| {
            let place = t.find(&keys.jumped(0, i, n)).ok()?;
            t.swap_remove(place)
        })
        .fold(0, |sum: usize, taken| sum.wrapping_add(taken.last))
}

// One round: the table is filled, looked through with and without hits, and emptied.
fn round(
    rt: &HostRuntime,
    t: &mut Links<'_>,
    keys: Keys,
    n: u32,
    times: &mut Times,
) -> anyhow::Result<usize> {
    timed(rt, &mut times.fill, || fill(t, keys, n))?;
    let found = timed(rt, &mut times.hit, || look(t, keys, 0, n))?;
    let missed = timed(rt, &mut times.miss, || look(t, keys, 1_000_000, n))?;
    let removed = timed(rt, &mut times.remove, || remove(t, keys, n))?;
    Ok(found.wrapping_add(missed).wrapping_add(removed))
}

// Fills a table of n slots with n keys again and again.
fn time(rt: &HostRuntime, name: &str, keys: Keys, n: u32) -> anyhow::Result<()> {
    let vacant = Slot::new((Account(0), Account(0)), Price(0));
    let mut memory = vec![in rt.alloc(); vacant; n as usize]?;
    let mut t = Table::new(memory.as_mut_slice());
    let mut times = Times::default();
    let mut sum = 0usize;
    let rounds = OPERATIONS / n.max(1);
    for _ in 0..rounds {
        sum = sum.wrapping_add(round(rt, &mut t, keys, n, &mut times)?);
    }
    let each = u128::from(rounds).saturating_mul(u128::from(n)).max(1);
    print!(rt;
        "{n} {name}: fill {} hit {}",
        times.fill / each,
        times.hit / each
    )?;
    println!(rt;
        " miss {} remove {} (places {sum})",
        times.miss / each,
        times.remove / each
    )?;
    Ok(())
}

fn time_all(rt: &HostRuntime) -> anyhow::Result<()> {
    println!(rt; "ns for each operation, in tables that are full")?;
    for n in [1_000, 10_000, 60_000] {
        time(rt, "consecutive", Keys::Consecutive, n)?;
        time(rt, "scattered", Keys::Scattered, n)?;
    }
    Ok(())
}

fn run(rt: &HostRuntime) -> anyhow::Result<()> {
    match env::args(rt)?.nth(1) {
        Some(_) => time_all(rt),
        None => Ok(println!(rt; "usage: tablebench run")?),
    }
}

fn main(rt: HostRuntime) -> anyhow::Result<()> {
    run(&rt)
}
