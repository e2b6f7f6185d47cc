// The whole image of 67 blocks, read and edited in the lent bytes.
#![tactic(auto)]

ghost use Rattle.std.specs.Prelude.{◌≡◌, true, ◌+◌, ◌≤◌, ◌<◌, length};
ghost use Rattle.numbers.specs.Words.{every, ascends?};
ghost use Rattle.numbers.specs.Numbers.{Crew};
ghost use Rattle.block.specs.Fields.{cut, field, upto};
ghost use Rattle.meaning.specs.State.{stored_before, listed_before};
ghost use Rattle.layout.specs.PointBlock.{form_1, decode_stored};
ghost use Rattle.layout.specs.Clocks.{decode_clock};
ghost use Rattle.layout.specs.Image.{image_length, decode, decode_dots, good_image};
ghost use Rattle.record.specs.RecordGood.{record_good};
ghost use Rattle.image.specs.Parts.{stored_count, stored_laid_out, Few, Ascending, parts_laid_out, parts_good};
ghost use Rattle.image.specs.Places.{PointIn};
ghost use Rattle.image.specs.Apart.{apart_from_earlier, point_at, dot_listed_for, listed_for, all_apart};

use dots::DotList;
use numbers::{Controller, Dot, Key};

// The number of stored points: "then points .., then blocks of zeros", so up to the first block of kind 0.
pub fn stored_count(image: &[u8]) -> usize
    requires { length image.now ≡ image_length }
    ensures { result ≡ stored_count image.now }
{
    (0..64)
        .find(|n| block::u8_at(image, 512 * (3 + *n)) == 0)
        .unwrap_or(64)
}

// Each of the stored points stands in its block as it should.
pub fn points_laid_out(image: &[u8], count: usize) -> bool
    requires { (length image.now ≡ image_length) × (count ≤ 64) }
    ensures { result ≡ every (upto count (λ i. stored_laid_out image.now (3 + i))) }
{
    (0..count).all(|i| {
        let at = 512 * (3 + i);
        record::stored_laid_out(&image[at..at + 512], (3 + i) as u16)
    })
}

// "points ascending by job and point": each comes before the next.
pub fn points_ascend(image: &[u8], count: usize) -> bool
    requires { (length image.now ≡ image_length) × (count ≤ 64) }
    ensures { result ≡ ascends? stored_before (upto count (point_at image.now)) }
{
    (1..count).all(|i| {
        let at = 512 * (3 + i);
        let last = record::key_of(&image[at - 512..at]);
        last.before(record::key_of(&image[at..at + 512]))
    })
}

// Where the point is stored, by halves, or the place before which it would stand.
pub fn find_point(image: &[u8], count: usize, k: Key) -> Result<usize, usize>
    requires { (length image.now ≡ image_length)
        × (count ≤ 64)
        × (ascends? stored_before (upto count (point_at image.now)) ≡ true) }
    ensures { PointIn (upto count (point_at image.now)) k result }
{
    let mut low: usize = 0;
    let mut high = count;
    while low < high {
        let mid = low + (high - low) / 2;
        let at = 512 * (3 + mid);
        let there = record::key_of(&image[at..at + 512]);
        if there.before(k) {
            low = mid + 1;
        } else {
            if !k.before(there) {
                return Ok(mid);
            }
            high = mid;
        }
    }
    Err(low)
}

// Each stored point passes the clauses of a good state that speak of one record.
pub fn records_good(image: &[u8], count: usize, own: Controller, table: &[u8], rows: &[u8]) -> bool
    requires { (length image.now ≡ image_length) × (count ≤ 64) × Few image.now count × (length table.now ≡ 8) × (length rows.now ≡ 96) × Crew own }
    ensures { result ≡ every (upto count (λ i. record_good own table.now (decode_clock rows.now) (point_at image.now i))) }
{
    (0..count).all(|i| {
        let at = 512 * (3 + i);
        record::record_good(&image[at..at + 512], own, table, rows)
    })
}

// No two stored points share a dot.
pub fn records_apart(image: &[u8], count: usize) -> bool
    requires { (length image.now ≡ image_length) × (count ≤ 64) × Few image.now count }
    ensures { result ≡ every (upto count (apart_from_earlier image.now)) }
{
    apart::points_apart(&image[1536..], count)
}

// Every block is laid out as it should be, and zeros follow the last point.
pub fn laid_out(image: &[u8]) -> bool
    requires { length image.now ≡ image_length }
    ensures { result ≡ parts_laid_out image.now }
{
    if !head::head_laid_out(&image[0..512]) {
        return false;
    }
    if !dots::dots_laid_out(&image[512..1024], 1) {
        return false;
    }
    if !dots::dots_laid_out(&image[1024..1536], 2) {
        return false;
    }
    let count = stored_count(image);
    if !points_laid_out(image, count) {
        return false;
    }
    block::is_zero(image, 512 * (3 + count), 34304)
}

// The dot, where the list has it, is listed for the point k.
pub fn dot_listed_for(list: &[u8], d: Dot, k: Key) -> bool
    requires { (length list.now ≡ 512) × (field list.now 4 2 ≤ 60) × (ascends? listed_before (decode_dots list.now) ≡ true) }
    ensures { result ≡ dot_listed_for (decode_dots list.now) d k }
{
    match dots::find_dot(list, d) {
        Ok(i) => {
            let there = dots::entry_key(list, i);
            there.same(k)
        }
        Err(_) => true,
    }
}

// Each version dot of a point block that is listed is listed for that point.
pub fn versions_listed_for(list: &[u8], b: &[u8]) -> bool
    requires { (length list.now ≡ 512) × (field list.now 4 2 ≤ 60) × (ascends? listed_before (decode_dots list.now) ≡ true)
        × (length b.now ≡ 512) × (field b.now 5 1 ≤ 8) }
    ensures { result ≡ listed_for (decode_dots list.now) (decode_stored form_1 b.now) }
{
    let k = record::key_of(b);
    let count = record::version_count(b) as usize;
    (0..count).all(|i| dot_listed_for(list, record::version_dot(b, i), k))
}

// The list agrees with every stored point.
pub fn list_agrees(list: &[u8], image: &[u8], count: usize) -> bool
    requires { (length list.now ≡ 512) × (field list.now 4 2 ≤ 60) × (ascends? listed_before (decode_dots list.now) ≡ true)
        × (length image.now ≡ image_length) × (count ≤ 64) × Few image.now count }
    ensures { result ≡ every (upto count (λ i. listed_for (decode_dots list.now) (point_at image.now i))) }
{
    (0..count).all(|i| {
        let at = 512 * (3 + i);
        versions_listed_for(list, &image[at..at + 512])
    })
}

// "No dot stands in two records or is listed for another point than the record that holds it."
pub fn dots_apart(image: &[u8], count: usize) -> bool
    requires { (length image.now ≡ image_length) × (count ≤ 64) × Few image.now count × Ascending (cut image.now 512 512) × Ascending (cut image.now 1024 512) }
    ensures { result ≡ all_apart image.now count }
{
    if !records_apart(image, count) {
        return false;
    }
    if !list_agrees(&image[512..1024], image, count) {
        return false;
    }
    list_agrees(&image[1024..1536], image, count)
}

// The state of an image that is laid out is good in its head, its lists, its records, their order, and in that no dot is another point's.
pub fn parts_good(image: &[u8]) -> bool
    requires { (length image.now ≡ image_length) × (parts_laid_out image.now ≡ true) }
    ensures { result ≡ parts_good (decode image.now) }
{
    if !head::head_good(&image[0..512]) {
        return false;
    }
    let own = head::own_of(&image[0..512]);
    if !dots::dots_good(
        &image[512..1024],
        DotList::Own,
        own,
        &image[8..16],
        &image[16..112],
    ) {
        return false;
    }
    if !dots::dots_good(
        &image[1024..1536],
        DotList::Foreign,
        own,
        &image[8..16],
        &image[16..112],
    ) {
        return false;
    }
    let count = stored_count(image);
    if !records_good(image, count, own, &image[8..16], &image[16..112]) {
        return false;
    }
    if !points_ascend(image, count) {
        return false;
    }
    dots_apart(image, count)
}

// Whether these bytes are a good image: the right length, the right layout, a good state.
pub fn good(image: &[u8]) -> bool
    ensures { result ≡ good_image image.now }
{
    if image.len() != 34304 {
        return false;
    }
    if !laid_out(image) {
        return false;
    }
    parts_good(image)
}
