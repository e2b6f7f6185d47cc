// What a message's point would make of a good image, judged on the lent bytes. The two contexts of a merge stand beside it as eight counters each:
// `here` is the local one, filled, and `there` the message's.
#![tactic(auto)]

ghost use Rattle.std.specs.Prelude.{◌≡◌, true, ◌&&◌, ◌<◌, length, ltb};
ghost use Rattle.numbers.specs.Words.{map, ascends?};
ghost use Rattle.numbers.specs.Numbers.{counter};
ghost use Rattle.meaning.specs.Object.{strip, gone};
ghost use Rattle.meaning.specs.State.{stored_before, local};
ghost use Rattle.meaning.specs.Message.{most_versions};
ghost use Rattle.meaning.specs.Settle.{put};
ghost use Rattle.layout.specs.PointBlock.{decode_context};
ghost use Rattle.layout.specs.Clocks.{decode_clock};
ghost use Rattle.layout.specs.Image.{image_length, decode, good_image};
ghost use Rattle.image_edits.specs.Edits.{Canonical};
ghost use Rattle.store.specs.HasRecord.{has_record};
ghost use Rattle.weighing.specs.Weighed.{key_in, Takable, result_of};

use numbers::Key;

// ---- the two contexts

// The filled local context of the point k.
pub fn local_context(image: &[u8], count: usize, k: Key, out: &mut [u32])
    requires { (length image.now ≡ image_length) × Canonical image.now × (count ≡ length (decode image.now).points) × (ascends? stored_before (decode image.now).points ≡ true) × (length out.old ≡ 8) }
    ensures { (map counter out.new ≡ (local (decode image.now) k).context) × (length out.new ≡ 8) }
{
    match image::find_point(image, count, k) {
        Ok(i) => {
            let at = 512 * (3 + i);
            merging::filled_context(
                &image[at + 8..at + 40],
                k.job,
                &image[8..16],
                &image[16..112],
                out,
            );
        }
        Err(_) => {
            let none: [u8; 32] = [0; 32];
            merging::filled_context(&none, k.job, &image[8..16], &image[16..112], out);
        }
    }
}

// A context as it stands in its 32 bytes.
pub fn given_context(stored: &[u8], out: &mut [u32])
    requires { (length stored.now ≡ 32) × (length out.old ≡ 8) }
    ensures { (map counter out.new ≡ decode_context stored.now) × (length out.new ≡ 8) }
{
    for i in 0..8 {
        out[i] = block::u32_at(stored, 4 * i);
    }
}

// ---- judging the result: 12 and 13

// "more than 8 versions": those of the local record that stay, and those that arrive. Without a record only those that arrive are there.
pub fn too_many(image: &[u8], count: usize, m: &[u8], here: &[u32], there: &[u32]) -> bool
    requires { (length image.now ≡ image_length) × (good_image image.now ≡ true) × (count ≡ length (decode image.now).points) × Takable (decode image.now) m.now here.now there.now }
    ensures { result ≡ ltb most_versions (length (result_of (decode image.now) m.now there.now).object.versions) }
{
    match image::find_point(image, count, record::key_of(m)) {
        Ok(i) => {
            let at = 512 * (3 + i);
            8 < merging::surviving(&image[at..at + 512], m, there) + object::staying(m, here)
        }
        Err(_) => false,
    }
}

// The result needs a place that its point has not yet.
pub fn needs_place(
    image: &[u8],
    count: usize,
    m: &[u8],
    here: &[u32],
    there: &[u32],
    rows: &[u8],
) -> bool
    requires { (length image.now ≡ image_length) × (good_image image.now ≡ true) × (count ≡ length (decode image.now).points) × Takable (decode image.now) m.now here.now there.now × (length rows.now ≡ 96) }
    ensures { result ≡ ltb (length (decode image.now).points) (length (put (decode_clock rows.now) (decode image.now).points (result_of (decode image.now) m.now there.now))) }
{
    match image::find_point(image, count, record::key_of(m)) {
        Ok(_) => false,
        Err(_) => !merging::goes_alone(m, here, there, rows),
    }
}

// Its record goes: it has one, and nothing needs it any more.
pub fn record_goes(
    image: &[u8],
    count: usize,
    m: &[u8],
    here: &[u32],
    there: &[u32],
    rows: &[u8],
) -> bool
    requires { (length image.now ≡ image_length) × (good_image image.now ≡ true) × (count ≡ length (decode image.now).points) × Takable (decode image.now) m.now here.now there.now × (length rows.now ≡ 96) }
    ensures { result ≡ (has_record (key_in m.now) (decode image.now).points && gone (strip (decode_clock rows.now) (result_of (decode image.now) m.now there.now).object)) }
{
    match image::find_point(image, count, record::key_of(m)) {
        Ok(i) => {
            let at = 512 * (3 + i);
            merging::goes_with(&image[at..at + 512], m, here, there, rows)
        }
        Err(_) => false,
    }
}
