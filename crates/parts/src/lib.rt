// The crew table and the clock rows as lent parts, of an image's head or of a message: who holds which job, and what was seen.
#![tactic(auto)]

ghost use Rattle.std.specs.Prelude.{◌≡◌, length};
ghost use Rattle.numbers.specs.Numbers.{Crew};
ghost use Rattle.meaning.specs.CrewTable.{holds};
ghost use Rattle.meaning.specs.Clock.{row, in_clock};
ghost use Rattle.layout.specs.Clocks.{decode_clock};

use numbers::{Controller, Dot};
use row::Row;

// "bit n-1 says that controller n holds the job"
pub fn holds(table: &[u8], n: Controller, job: u8) -> bool
    requires { (length table.now ≡ 8) × Crew n }
    ensures { result ≡ holds table.now n job }
{
    let who = n.0;
    if 7 < job {
        return false;
    }
    let at = job as usize;
    (table[at] >> (who - 1)) % 2 == 1
}

// Controller n's row, of eight.
pub fn row_at(rows: &[u8], n: Controller) -> Row
    requires { (length rows.now ≡ 96) × Crew n }
    ensures { result ≡ row (decode_clock rows.now) n }
{
    let who = n.0;
    let at = 12 * ((who - 1) as usize);
    Row {
        base: block::u32_at(rows, at),
        bits: block::u64_at(rows, at + 4),
    }
}

// The dot is in the clock.
pub fn in_clock(rows: &[u8], d: Dot) -> bool
    requires { (length rows.now ≡ 96) × Crew d.who }
    ensures { result ≡ in_clock (decode_clock rows.now) d }
{
    row_at(rows, d.who).has(d.count)
}
