// A block of listed dots, read and edited in the lent bytes.
// "Kind 2, dots: 4-5 count; 8 on, entries of 8: controller, job, point (2), counter (4)"
#![tactic(auto)]

ghost use Rattle.std.specs.Prelude.{◌≡◌, true, ◌+◌, ◌*◌, ◌<◌, ◌≤◌, length};
ghost use Rattle.numbers.specs.Words.{same_list, ascends?};
ghost use Rattle.numbers.specs.Numbers.{Crew};
ghost use Rattle.block.specs.Fields.{cut, splice, insert_at, remove_at, field};
ghost use Rattle.block.specs.Block.{Laid};
ghost use Rattle.meaning.specs.State.{listed_before};
ghost use Rattle.layout.specs.Clocks.{decode_clock};
ghost use Rattle.layout.specs.Image.{encode_entry, decode_entry, encode_dots, decode_dots};
ghost use Rattle.dots.specs.DotsBlock.{lay_dots, dots_block, with_dots};
ghost use Rattle.dots.specs.DotsGood.{dots_good};
ghost use Rattle.dots.specs.Entries.{right_list, entry_good, FoundIn};
ghost use Rattle.dots.specs.Lists.{list_block, is_own};

use block::Kind;
use numbers::{Controller, Counter, Dot, Key, Point};

// The two lists of an image.
#[derive(Clone, Copy, Debug, PartialEq, Eq)]
pub enum DotList {
    // the dots of the controller itself
    Own,
    // those of the others
    Foreign,
}

impl DotList {
    // The block that it stands in: the own dots in block 1, the foreign ones in block 2.
    pub fn block(self) -> usize
        ensures { (result ≡ list_block self) × (1 ≤ result) × (result ≤ 2) }
    {
        match self {
            DotList::Own => 1,
            DotList::Foreign => 2,
        }
    }
}

// "4-5 count"
pub fn entry_count(b: &[u8]) -> u16
    requires { length b.now ≡ 512 }
    ensures { result ≡ field b.now 4 2 }
{
    block::u16_at(b, 4)
}

// The dot of entry i: its controller is the entry's first byte, its counter the last four.
pub fn entry_dot(b: &[u8], i: usize) -> Dot
    requires { (length b.now ≡ 512) × (i < 60) }
    ensures { result ≡ (decode_entry (cut b.now (8 + 8 * i) 8)).dot }
{
    let at = 8 + 8 * i;
    Dot {
        who: Controller(block::u8_at(b, at)),
        count: Counter(block::u32_at(b, at + 4)),
    }
}

// The point of entry i: its job and its number.
pub fn entry_key(b: &[u8], i: usize) -> Key
    requires { (length b.now ≡ 512) × (i < 60) }
    ensures { result ≡ (decode_entry (cut b.now (8 + 8 * i) 8)).key }
{
    let at = 8 + 8 * i;
    Key {
        job: block::u8_at(b, at + 1),
        point: Point(block::u16_at(b, at + 2)),
    }
}

// Kind 2, format 1, the position, at most 60 entries, bytes 6-7 and those behind the entries zero, and the check right.
pub fn dots_laid_out(b: &[u8], position: u16) -> bool
    requires { length b.now ≡ 512 }
    ensures { result ≡ same_list (encode_dots position (decode_dots b.now)) b.now }
{
    if !block::headed(b, Kind::Dots, position) {
        return false;
    }
    let n = entry_count(b) as usize;
    if 60 < n {
        return false;
    }
    if !block::is_zero(b, 6, 8) {
        return false;
    }
    if !block::is_zero(b, 8 + 8 * n, 508) {
        return false;
    }
    block::is_sealed(b)
}

// "own and foreign dots": the own list holds own dots only, and the foreign list none.
fn in_its_list(list: DotList, who: Controller, own: Controller) -> bool
    ensures { result ≡ right_list (is_own list) own who }
{
    match list {
        DotList::Own => who == own,
        DotList::Foreign => who != own,
    }
}

// What is asked of one listed dot: its ranges, "dots name holders of the job", its list, "every listed dot is of a held job" and "listed dots are
// in the clock".
pub fn entry_good(d: Dot, k: Key, list: DotList, own: Controller, table: &[u8], rows: &[u8]) -> bool
    requires { Crew own × (length table.now ≡ 8) × (length rows.now ≡ 96) }
    ensures { result ≡ entry_good (is_own list) own table.now (decode_clock rows.now) (record { dot = d; key = k }) }
{
    let who = d.who.0;
    let job = k.job;
    if 7 < job {
        return false;
    }
    if k.point.0 < 1 {
        return false;
    }
    if who < 1 {
        return false;
    }
    if 8 < who {
        return false;
    }
    if d.count.0 < 1 {
        return false;
    }
    if !parts::holds(table, d.who, job) {
        return false;
    }
    if !in_its_list(list, d.who, own) {
        return false;
    }
    if !parts::holds(table, own, job) {
        return false;
    }
    parts::in_clock(rows, d)
}

// All clauses of a good state that speak of this list alone. A dot comes after all before it where it comes after the one before it.
pub fn dots_good(b: &[u8], list: DotList, own: Controller, table: &[u8], rows: &[u8]) -> bool
    requires { (length b.now ≡ 512)
        × (field b.now 4 2 ≤ 60)
        × Crew own
        × (length table.now ≡ 8)
        × (length rows.now ≡ 96) }
    ensures { result ≡ dots_good (is_own list) own table.now (decode_clock rows.now) (decode_dots b.now) }
{
    let n = entry_count(b) as usize;
    (0..n).all(|i| entry_good(entry_dot(b, i), entry_key(b, i), list, own, table, rows))
        && (1..n).all(|i| entry_dot(b, i - 1).before(entry_dot(b, i)))
}

// Where the dot is listed, counted from 0, or, where it is not, the place before which it would stand, as an error. It is looked for by halves: it lies
// at `low` or behind it, and before `high`.
fn search_dot(b: &[u8], d: Dot) -> Result<usize, usize>
    requires { (length b.now ≡ 512)
        × (field b.now 4 2 ≤ 60)
        × (ascends? listed_before (decode_dots b.now) ≡ true) }
    ensures { FoundIn (decode_dots b.now) d result }
{
    let mut low: usize = 0;
    let mut high = entry_count(b) as usize;
    while low < high {
        let mid = low + (high - low) / 2;
        let e = entry_dot(b, mid);
        if e.before(d) {
            low = mid + 1;
        } else {
            if !d.before(e) {
                return Ok(mid);
            }
            high = mid;
        }
    }
    Err(low)
}

// Where the dot is listed. One that comes before the first or after the last is not looked for: so it is with all other controllers' dots in the
// list of own ones.
pub fn find_dot(b: &[u8], d: Dot) -> Result<usize, usize>
    requires { (length b.now ≡ 512)
        × (field b.now 4 2 ≤ 60)
        × (ascends? listed_before (decode_dots b.now) ≡ true) }
    ensures { FoundIn (decode_dots b.now) d result }
{
    let count = entry_count(b) as usize;
    if count == 0 {
        return Err(0);
    }
    if d.before(entry_dot(b, 0)) {
        return Err(0);
    }
    if entry_dot(b, count - 1).before(d) {
        return Err(count);
    }
    search_dot(b, d)
}

// ---- edits: the list holds other dots and is laid out still, but for its check, which is made after the last of them

// Entry i: "controller, job, point (2), counter (4)".
fn write_entry(b: &mut [u8], i: usize, d: Dot, k: Key)
    requires { (length b.old ≡ 512) × (i < 60) }
    ensures { b.new ≡ splice b.old (8 + 8 * i) 8 (encode_entry (record { dot = d; key = k })) }
{
    let at = 8 + 8 * i;
    block::put_u8(b, at, d.who.0);
    block::put_u8(b, at + 1, k.job);
    block::put_u16(b, at + 2, k.point.0);
    block::put_u32(b, at + 4, d.count.0);
}

// One more dot, before entry i.
pub fn insert_dot(b: &mut [u8], i: usize, d: Dot, k: Key)
    requires { (length b.old ≡ 512) × Laid lay_dots dots_block b.old × (i ≤ length (decode_dots b.old)) × (length (decode_dots b.old) < 60) }
    ensures { (dots_block b.new ≡ with_dots (dots_block b.old) (insert_at (decode_dots b.old) i (record { dot = d; key = k }))) × Laid lay_dots dots_block b.new }
{
    let n = entry_count(b) as usize;
    let at = 8 + 8 * i;
    block::move_up(b, at, at + 8, n - i);
    write_entry(b, i, d, k);
    block::put_u16(b, 4, (n + 1) as u16);
}

// Entry i goes.
pub fn remove_dot(b: &mut [u8], i: usize)
    requires { (length b.old ≡ 512) × Laid lay_dots dots_block b.old × (i < length (decode_dots b.old)) }
    ensures { (dots_block b.new ≡ with_dots (dots_block b.old) (remove_at (decode_dots b.old) i)) × Laid lay_dots dots_block b.new }
{
    let n = entry_count(b) as usize;
    let at = 8 + 8 * i;
    block::move_down(b, at + 8, at, n - i - 1);
    block::clear(b, 8 * n, 8 * n + 8);
    block::put_u16(b, 4, (n - 1) as u16);
}
