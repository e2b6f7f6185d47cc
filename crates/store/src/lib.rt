// Records of an image put anew, from one canonical image to another.
#![tactic(auto)]

ghost use Rattle.std.specs.Prelude.{◌≡◌, true, ◌≤◌, ◌<◌, length, get_or};
ghost use Rattle.numbers.specs.Words.{ascends?};
ghost use Rattle.block.specs.Fields.{put_at, insert_at};
ghost use Rattle.block.specs.Block.{Laid};
ghost use Rattle.meaning.specs.Object.{strip, gone};
ghost use Rattle.meaning.specs.State.{stored_before};
ghost use Rattle.meaning.specs.Settle.{most_points, stripped, put};
ghost use Rattle.layout.specs.Clocks.{decode_clock};
ghost use Rattle.layout.specs.PointBlock.{form_1, decode_stored};
ghost use Rattle.layout.specs.Image.{image_length, decode};
ghost use Rattle.record_edits.specs.Written.{lay_point, point_block};
ghost use Rattle.image.specs.Places.{no_point};
ghost use Rattle.image_edits.specs.Edits.{Canonical, with_points};
ghost use Rattle.store.specs.Restored.{restored};

// The i-th record is the point of the block b.
pub fn write_record(image: &mut [u8], i: usize, b: &[u8])
    requires { (length image.old ≡ image_length) × Canonical image.old × (i < length (decode image.old).points) × (length b.now ≡ 512) × Laid lay_point point_block b.now }
    ensures { (decode image.new ≡ with_points (decode image.old) (put_at (decode image.old).points i (decode_stored form_1 b.now))) × Canonical image.new }
{
    let at = 512 * (3 + i);
    block::copy_in(image, at, b);
    record_edits::renumber(&mut image[at..at + 512], (3 + i) as u16);
}

// The i-th record is stripped by these rows.
pub fn strip_record(image: &mut [u8], i: usize, rows: &[u8])
    requires { (length image.old ≡ image_length) × Canonical image.old × (i < length (decode image.old).points) × (length rows.now ≡ 96) }
    ensures { (decode image.new ≡ with_points (decode image.old) (put_at (decode image.old).points i (stripped (decode_clock rows.now) (get_or (decode image.old).points i no_point))))
        × Canonical image.new }
{
    let at = 512 * (3 + i);
    object::strip_off(&mut image[at..at + 512], rows);
    block::seal_block(&mut image[at..at + 512]);
}

// The i-th record is stripped, and goes where nothing needs it any more; whether it went.
pub fn strip_at(image: &mut [u8], count: usize, i: usize, rows: &[u8]) -> bool
    requires { (length image.old ≡ image_length) × Canonical image.old × (count ≡ length (decode image.old).points) × (i < count) × (length rows.now ≡ 96) }
    ensures { (result ≡ gone (strip (decode_clock rows.now) (get_or (decode image.old).points i no_point).object))
        × (decode image.new ≡ with_points (decode image.old) (restored (decode_clock rows.now) (decode image.old).points i))
        × Canonical image.new }
{
    strip_record(image, i, rows);
    let at = 512 * (3 + i);
    if !record::is_gone(&image[at..at + 512]) {
        return false;
    }
    image_edits::close_place(image, count, i);
    true
}

// The point of b is stored already, at i: it is written there, stripped, and goes where nothing needs it any more.
fn put_stored(image: &mut [u8], count: usize, i: usize, b: &[u8], rows: &[u8])
    requires { (length image.old ≡ image_length) × Canonical image.old × (count ≡ length (decode image.old).points) × (i < count) × (length b.now ≡ 512) × Laid lay_point point_block b.now × (length rows.now ≡ 96) }
    ensures { (decode image.new ≡ with_points (decode image.old) (restored (decode_clock rows.now) (put_at (decode image.old).points i (decode_stored form_1 b.now)) i))
        × Canonical image.new }
{
    write_record(image, i, b);
    strip_at(image, count, i, rows);
}

// The point of b has no record, and gets one before the i-th, stripped.
fn put_new(image: &mut [u8], count: usize, i: usize, b: &[u8], rows: &[u8])
    requires { (length image.old ≡ image_length) × Canonical image.old × (count ≡ length (decode image.old).points) × (i ≤ count) × (count < 64) × (length b.now ≡ 512) × Laid lay_point point_block b.now × (length rows.now ≡ 96) }
    ensures { (decode image.new ≡ with_points (decode image.old) (insert_at (decode image.old).points i (stripped (decode_clock rows.now) (decode_stored form_1 b.now))))
        × Canonical image.new }
{
    image_edits::open_place(image, count, i, record::key_of(b));
    write_record(image, i, b);
    strip_record(image, i, rows);
}

// The result that stands in b takes its record's place, stripped by these rows, or its record goes where nothing needs it. Where there is no
// record and none is needed, nothing is written: there may be no place left.
pub fn put_result(image: &mut [u8], count: usize, b: &[u8], rows: &[u8])
    requires { (length image.old ≡ image_length) × Canonical image.old × (count ≡ length (decode image.old).points) × (ascends? stored_before (decode image.old).points ≡ true) × (length b.now ≡ 512) × Laid lay_point point_block b.now × (length rows.now ≡ 96)
        × (length (put (decode_clock rows.now) (decode image.old).points (decode_stored form_1 b.now)) ≤ most_points) }
    ensures { (decode image.new ≡ with_points (decode image.old) (put (decode_clock rows.now) (decode image.old).points (decode_stored form_1 b.now))) × Canonical image.new }
{
    match image::find_point(image, count, record::key_of(b)) {
        Ok(i) => put_stored(image, count, i, b, rows),
        Err(i) => {
            if !object::goes(b, rows) {
                put_new(image, count, i, b, rows);
            }
        }
    }
}
