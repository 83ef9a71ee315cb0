// Reads a year file from standard input, opens it on an empty book under the standard allocation method, and prints the
// page in decimal, or `refused` and the number of the refusal.
#![tactic(auto)]

use bits::refusal::Refusal;
use pricing::page::{LocationalPrices, Page};
use standard::allocation::Allocation;
use standard::rules::Standard;
use std::io::Read;
use year::year::Year;

// One byte more than the longest year file: 64 points, 256 elements and 4,096 uses.
const MOST_BYTES: u64 = 23_772;

// The page of the year in a file, where no year was opened before and nothing is outstanding.
fn page_of(year: &mut Year, file: &[u8]) -> Result<Page, Refusal> {
    year.read(file)?;
    let method = Allocation::new(year, Standard)?;
    Page::new(year, &method, &LocationalPrices::none(), 0)
}

fn main(rt: HostRuntime) -> anyhow::Result<()> {
    let mut file = Vec::new(rt.alloc());
    rt.stdin().take(MOST_BYTES).read_to_end(&mut file)?;
    let mut year = Year::new(rt.alloc())?;
    match page_of(&mut year, &file) {
        Ok(page) => {
            for line in (0..usize::MAX).map_while(|place| page.line(place)) {
                println!(&rt; "{line}")?;
            }
        }
        Err(refusal) => println!(&rt; "{refusal}")?,
    }
    Ok(())
}
