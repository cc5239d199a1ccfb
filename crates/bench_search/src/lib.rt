// Searches for many originators in one table. It is no call of batman.h: the benchmark times the search alone by it, beside the same in C (bench/calls).
#![tactic(auto)]

ghost use Rattle.std.specs.Prelude.{◌≡◌, ℕ, ◌≤◌};
ghost use Rattle.table_layout.specs.Facts.{Knows};
ghost use Rattle.bench_search.specs.Searches.{held_at, SearchesIn, SearchesOf};

use table_check::well_formed;
use table_originators::find_record;
use wire::refusals::Refusal;

// Refusal 1, or 0 with how many of the originators have a record and the most rounds that the search for one of them took.
#[repr(C)]
#[derive(Clone, Copy)]
pub struct Searches {
    pub number: u64,
    pub held: u64,
    pub most: u64,
}

// 1 for a record that was found, 0 for a place.
fn held_at(f: Result<usize, usize>) -> u64
    ensures { result ≡ held_at f }
{
    u64::from(f.is_ok())
}

fn larger(a: u64, b: u64) -> u64
    ensures { (a ≤ result) × (b ≤ result) × ((m : ℕ) → a ≤ m → b ≤ m → result ≤ m) }
{
    a.max(b)
}

// The searches in a table that is well-formed.
fn search_each(cells: &[u64], originators: &[u32]) -> Searches
    requires { Knows cells.now }
    ensures { SearchesIn cells.now originators.now result }
{
    let mut held = 0;
    let mut most = 0;
    for originator in originators {
        let s = find_record(cells, *originator);
        let found = s.found;
        held += held_at(found);
        most = larger(most, s.rounds as u64);
    }
    Searches {
        number: 0,
        held,
        most,
    }
}

// Searches for each of the originators, or refuses.
#[unsafe(no_mangle)]
pub extern "C" fn bench_search(cells: &[u64], originators: &[u32]) -> Searches
    ensures { SearchesOf cells.now originators.now result }
{
    if !well_formed(cells) {
        return Searches {
            number: Refusal::NotWellFormed.number(),
            held: 0,
            most: 0,
        };
    }
    search_each(cells, originators)
}
