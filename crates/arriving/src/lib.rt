// What a message's points bring to an image: which of their versions arrive, what the clock would be, and whether they may be taken at all.
#![tactic(auto)]

ghost use Rattle.std.specs.Prelude.{◌≡◌, true, false, ◌&&◌, ◌-◌, ◌≤◌, length, ltb, if◌then◌else◌};
ghost use Rattle.numbers.specs.Words.{ascends?, fold};
ghost use Rattle.numbers.specs.Numbers.{same_controller, Crew};
ghost use Rattle.block.specs.Fields.{field, put_at};
ghost use Rattle.row.specs.Row.{add, fits, sound};
ghost use Rattle.meaning.specs.Clock.{row, every_row};
ghost use Rattle.meaning.specs.Context.{entry};
ghost use Rattle.meaning.specs.State.{stored_before, local};
ghost use Rattle.layout.specs.Clocks.{decode_clock};
ghost use Rattle.layout.specs.PointBlock.{form_1, decode_point};
ghost use Rattle.layout.specs.Image.{image_length, decode, good_image};
ghost use Rattle.image_edits.specs.Edits.{Canonical};
ghost use Rattle.arriving.specs.Tried.{tried, all_added};
ghost use Rattle.arriving.specs.Sent.{points_in, Few, counters_arriving, arriving_with, with_arrivals};

use numbers::{Controller, Counter, Dot, Key};
use row::Row;

// A row to which counters are added while they fit, and whether one was left over.
// Both fields always mean something, so that it is no `Result<Row, Row>`, which would say the row in two arms.
#[derive(Clone, Copy)]
pub struct Tried {
    pub row: Row,
    pub left: bool,
}

fn try_counter(t: Tried, c: Counter) -> Tried
    requires { sound t.row ≡ true }
    ensures { result ≡ tried t c }
{
    let row = t.row;
    match row.add(c) {
        Some(r) => Tried {
            row: r,
            left: t.left,
        },
        None => Tried {
            row: row,
            left: true,
        },
    }
}

// A dot of controller n above the local entry.
fn is_new_of(d: Dot, n: Controller, here: Counter) -> bool
    ensures { result ≡ (same_controller d.who n && ltb here.0 d.count.0) }
{
    d.who == n && here < d.count
}

// Its counter is tried where it is one.
fn enter_version(d: Dot, n: Controller, here: Counter, t: Tried) -> Tried
    requires { sound t.row ≡ true }
    ensures { result ≡ (if same_controller d.who n && ltb here.0 d.count.0 then tried t d.count else t) }
{
    if is_new_of(d, n, here) {
        return try_counter(t, d.count);
    }
    t
}

// The counters of controller n that arrive with the versions of b, where `here` is the local entry for n.
fn enter_point(b: &[u8], n: Controller, here: Counter, t: Tried) -> Tried
    requires { (length b.now ≡ 512) × (field b.now 5 1 ≤ 8) × (sound t.row ≡ true) }
    ensures { result ≡ fold tried t (counters_arriving n here (decode_point form_1 b.now).object.versions) }
{
    let count = record::version_count(b) as usize;
    let mut last = t;
    for i in 0..count {
        last = enter_version(record::version_dot(b, i), n, here, last);
    }
    last
}

// The entry for n of the filled local context of the point k.
pub fn local_entry(image: &[u8], count: usize, k: Key, n: Controller) -> Counter
    requires { (length image.now ≡ image_length) × Canonical image.now × (count ≡ length (decode image.now).points) × (ascends? stored_before (decode image.now).points ≡ true) × Crew n }
    ensures { result ≡ entry (local (decode image.now) k).context n }
{
    let holder = parts::holds(&image[8..16], n, k.job);
    let r = parts::row_at(&image[16..112], n);
    match image::find_point(image, count, k) {
        Ok(i) => {
            let at = 512 * (3 + i);
            object::filled_entry(
                record::context_entry(&image[at..at + 512], n),
                holder,
                r.base,
            )
        }
        Err(_) => object::filled_entry(Counter(0), holder, r.base),
    }
}

// One pass over the points of a message: the counters of controller n that arrive are tried in the order in which they stand.
fn enter_points(image: &[u8], count: usize, points: &[u8], n: Controller, r: Row) -> Tried
    requires { (length image.now ≡ image_length) × (good_image image.now ≡ true) × (count ≡ length (decode image.now).points) × Few points.now × Crew n × (sound r ≡ true) }
    ensures { result ≡ fold tried (record { row = r; left = false }) (arriving_with (decode image.now) n (points_in points.now)) }
{
    let mut last = Tried {
        row: r,
        left: false,
    };
    for j in 0..points.len() / 512 {
        let at = 512 * j;
        let here = local_entry(image, count, record::key_of(&points[at..at + 512]), n);
        last = enter_point(&points[at..at + 512], n, here, last);
    }
    last
}

// "11 to 13 are judged on the step's result with no limit applied": a counter may be too far in one pass and fit in the next, so passes are made
// until one leaves nothing over, or leaves something over and did not raise the base.
fn enter_row(image: &[u8], count: usize, points: &[u8], n: Controller, r: Row) -> Option<Row>
    requires { (length image.now ≡ image_length) × (good_image image.now ≡ true) × (count ≡ length (decode image.now).points) × Few points.now × Crew n × (sound r ≡ true) }
    ensures { result ≡ all_added r (arriving_with (decode image.now) n (points_in points.now)) }
{
    let mut t = enter_points(image, count, points, n, r);
    let mut base = r.base;
    while t.left {
        let row = t.row;
        if row.base == base {
            return None;
        }
        base = row.base;
        t = enter_points(image, count, points, n, row);
    }
    let whole = t.row;
    Some(whole)
}

// Controller n's row, of eight.
pub fn put_row(rows: &mut [u8], n: Controller, r: Row)
    requires { (length rows.old ≡ 96) × Crew n }
    ensures { (decode_clock rows.new ≡ put_at (decode_clock rows.old) (n.0 - 1) r) × (length rows.new ≡ 96) }
{
    let who = n.0;
    let at = 12 * ((who - 1) as usize);
    block::put_u32(rows, at, r.base);
    block::put_u64(rows, at + 4, r.bits);
}

// Those of controller n enter its row, where it can take them.
fn enter_row_at(image: &[u8], count: usize, points: &[u8], n: Controller, rows: &mut [u8]) -> bool
    requires { (length image.now ≡ image_length) × (good_image image.now ≡ true) × (count ≡ length (decode image.now).points) × Few points.now × Crew n × (length rows.old ≡ 96) × (sound (row (decode_clock rows.old) n) ≡ true) }
    ensures { (result ≡ fits (fold add (row (decode_clock rows.old) n) (arriving_with (decode image.now) n (points_in points.now))))
        × (result ≡ true → decode_clock rows.new ≡ put_at (decode_clock rows.old) (n.0 - 1) (fold add (row (decode_clock rows.old) n) (arriving_with (decode image.now) n (points_in points.now))))
        × (length rows.new ≡ 96) }
{
    match enter_row(image, count, points, n, parts::row_at(rows, n)) {
        Some(r) => {
            put_row(rows, n, r);
            true
        }
        None => false,
    }
}

// The counters that arrive with the points of a message enter the rows. Whether every row could take its own; where not, the rows are of no use.
pub fn enter_rows(image: &[u8], count: usize, points: &[u8], rows: &mut [u8]) -> bool
    requires { (length image.now ≡ image_length) × (good_image image.now ≡ true) × (count ≡ length (decode image.now).points) × Few points.now × (length rows.old ≡ 96) × (every_row sound (decode_clock rows.old) ≡ true) }
    ensures { (result ≡ every_row fits (with_arrivals (decode image.now) (decode_clock rows.old) (points_in points.now)))
        × (result ≡ true → decode_clock rows.new ≡ with_arrivals (decode image.now) (decode_clock rows.old) (points_in points.now))
        × (length rows.new ≡ 96) }
{
    for n in 1..9 {
        if !enter_row_at(image, count, points, Controller(n), rows) {
            return false;
        }
    }
    true
}
