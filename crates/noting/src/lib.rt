// The dots that arrive new with a message's points, put into the list of foreign dots.
// "Version dots new to the clock are listed with their point, own ones always, foreign ones in order of controller and counter while there is room."
#![tactic(auto)]

ghost use Rattle.std.specs.Prelude.{◌≡◌, true, not, ◌≤◌, ◌<◌, length, None};
ghost use Rattle.numbers.specs.Words.{all?, ascends?, place};
ghost use Rattle.numbers.specs.Numbers.{Crew};
ghost use Rattle.numbers.specs.Dot.{same_dot};
ghost use Rattle.block.specs.Fields.{field};
ghost use Rattle.meaning.specs.State.{stored_before, listed_before};
ghost use Rattle.meaning.specs.Settle.{most_listed};
ghost use Rattle.layout.specs.PointBlock.{form_1, decode_point, decode_stored};
ghost use Rattle.layout.specs.Image.{image_length, decode, good_image};
ghost use Rattle.record.specs.Crewed.{crewed};
ghost use Rattle.image_edits.specs.Edits.{Canonical, with_list};
ghost use Rattle.arriving.specs.Sent.{points_in, Few};
ghost use Rattle.noting.specs.Noted.{arrives_new, new_of, newly_arrived, noted, Crewed};
ghost use Rattle.noting.specs.Nearest.{nearer, with_new, nearest};

use dots::DotList;
use numbers::{Controller, Counter, Dot, Key};

// ---- which dots arrive new. The image's clock, table and points are asked, and not its lists: these grow while its other parts stay.

// The dot, of a version of the point k, arrives and is new to the clock.
fn arrives_new(image: &[u8], count: usize, k: Key, d: Dot) -> bool
    requires { (length image.now ≡ image_length) × Canonical image.now × (count ≡ length (decode image.now).points) × (ascends? stored_before (decode image.now).points ≡ true) × Crew d.who }
    ensures { result ≡ arrives_new (decode image.now) k d }
{
    if parts::in_clock(&image[16..112], d) {
        return false;
    }
    let here = arriving::local_entry(image, count, k, d.who);
    here < d.count
}

// ---- the next one in order, after the last one that was listed

// The nearer of two.
fn nearer(best: Option<(Dot, Key)>, d: Dot, k: Key) -> Option<(Dot, Key)>
    ensures { result ≡ nearer best (record { dot = d; key = k }) }
{
    match best {
        None => Some((d, k)),
        Some((e, j)) => {
            if d.before(e) {
                return Some((d, k));
            }
            Some((e, j))
        }
    }
}

// The same with a dot of the point k, where it lies behind the last one and arrives new.
fn with_dot(
    image: &[u8],
    count: usize,
    k: Key,
    d: Dot,
    last: Dot,
    best: Option<(Dot, Key)>,
) -> Option<(Dot, Key)>
    requires { (length image.now ≡ image_length) × Canonical image.now × (count ≡ length (decode image.now).points) × (ascends? stored_before (decode image.now).points ≡ true) × Crew d.who }
    ensures { result ≡ with_new (decode image.now) k last best d }
{
    if !last.before(d) {
        return best;
    }
    if !arrives_new(image, count, k, d) {
        return best;
    }
    nearer(best, d, k)
}

// The same with the versions of the point block b.
fn next_in_point(
    image: &[u8],
    count: usize,
    b: &[u8],
    last: Dot,
    start: Option<(Dot, Key)>,
) -> Option<(Dot, Key)>
    requires { (length image.now ≡ image_length) × Canonical image.now × (count ≡ length (decode image.now).points) × (ascends? stored_before (decode image.now).points ≡ true)
        × (length b.now ≡ 512) × (field b.now 5 1 ≤ 8) × (crewed (decode_point form_1 b.now).object.versions ≡ true) }
    ensures { result ≡ nearest last start (new_of (decode image.now) (decode_stored form_1 b.now)) }
{
    let k = record::key_of(b);
    let many = record::version_count(b) as usize;
    let mut best = start;
    for i in 0..many {
        best = with_dot(image, count, k, record::version_dot(b, i), last, best);
    }
    best
}

// The same with all points of a message.
fn next_new(image: &[u8], count: usize, points: &[u8], last: Dot) -> Option<(Dot, Key)>
    requires { (length image.now ≡ image_length) × Canonical image.now × (count ≡ length (decode image.now).points) × (ascends? stored_before (decode image.now).points ≡ true)
        × Few points.now × Crewed points.now }
    ensures { result ≡ nearest last None (newly_arrived (decode image.now) (points_in points.now)) }
{
    let many = points.len() / 512;
    let mut best = None;
    for j in 0..many {
        let at = 512 * j;
        best = next_in_point(image, count, &points[at..at + 512], last, best);
    }
    best
}

// ---- listing them

// A foreign dot that is not listed yet, so that the search finds where it goes and never the dot itself, comes to its place.
fn list_dot(image: &mut [u8], d: Dot, k: Key)
    requires { (length image.old ≡ image_length) × Canonical image.old × (ascends? listed_before (decode image.old).foreign_dots ≡ true) × (length (decode image.old).foreign_dots < most_listed)
        × (all? (λ l. not (same_dot d l.dot)) (decode image.old).foreign_dots ≡ true) }
    ensures { (decode image.new ≡ with_list (decode image.old) 2 (place listed_before (record { dot = d; key = k }) (decode image.old).foreign_dots)) × Canonical image.new }
{
    match dots::find_dot(&image[1024..1536], d) {
        Ok(_) => {}
        Err(i) => image_edits::insert_dot(image, DotList::Foreign, i, d, k),
    }
}

// Those that arrive new with the points of a message are listed, the first in order first, while there is room. Dot 0 of controller 0, which is
// none, comes before the first.
pub fn list_new(image: &mut [u8], count: usize, points: &[u8])
    requires { (length image.old ≡ image_length) × (good_image image.old ≡ true) × (count ≡ length (decode image.old).points) × Few points.now × Crewed points.now }
    ensures { (decode image.new ≡ with_list (decode image.old) 2 (noted (decode image.old) (points_in points.now))) × Canonical image.new }
{
    let mut last = Dot {
        who: Controller(0),
        count: Counter(0),
    };
    let before = dots::entry_count(&image[1024..1536]) as usize;
    for listed in before..60 {
        match next_new(image, count, points, last) {
            None => return,
            Some((d, k)) => {
                list_dot(image, d, k);
                last = d;
            }
        }
    }
}
