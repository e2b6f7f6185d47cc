// Take in, on a good image: judged on the lent bytes, then merged in place. The two contexts of a merge stand beside it as eight counters each:
// `here` is the local one, filled, and `there` the message's.
#![tactic(auto)]

ghost use Rattle.std.specs.Prelude.{◌≡◌, true, [], ◌∷◌, ◌<◌, length, Ok};
ghost use Rattle.numbers.specs.Words.{map};
ghost use Rattle.numbers.specs.Numbers.{counter};
ghost use Rattle.refusal.specs.Refusal.{verdict_of};
ghost use Rattle.row.specs.Row.{fits};
ghost use Rattle.meaning.specs.Clock.{every_row};
ghost use Rattle.meaning.specs.State.{local};
ghost use Rattle.meaning.specs.Settle.{settled, settle};
ghost use Rattle.layout.specs.PointBlock.{form_1, decode_point};
ghost use Rattle.layout.specs.Clocks.{decode_clock};
ghost use Rattle.layout.specs.Image.{image_length, encode, decode, good_image};
ghost use Rattle.layout.specs.Calls.{afterwards};
ghost use Rattle.arriving.specs.Sent.{points_in, with_arrivals};
ghost use Rattle.checking.specs.Judged.{message_judged};
ghost use Rattle.weighing.specs.Weighed.{key_in, Takable, result_of};
ghost use Rattle.taking.specs.Taken.{result_judged, taken, left_by, heard};

use refusal::Refusal;

// ---- judging the result: 12 and 13

// 12 and 13, by the rows that the step would leave.
fn judge_point(
    image: &[u8],
    count: usize,
    m: &[u8],
    here: &[u32],
    there: &[u32],
    rows: &[u8],
) -> Result<(), Refusal>
    requires { (length image.now ≡ image_length) × (good_image image.now ≡ true) × (count ≡ length (decode image.now).points) × Takable (decode image.now) m.now here.now there.now × (length rows.now ≡ 96)
        × (every_row fits (decode_clock rows.now) ≡ true) }
    ensures { result ≡ verdict_of (result_judged (decode image.now) (decode_clock rows.now) (result_of (decode image.now) m.now there.now) true) }
{
    if weighing::too_many(image, count, m, here, there) {
        return Err(Refusal::TooManyVersions);
    }
    if count < 64 {
        return Ok(());
    }
    if weighing::needs_place(image, count, m, here, there, rows) {
        return Err(Refusal::TooManyPoints);
    }
    Ok(())
}

// A message's point that was judged: its dots are listed, its record is put, and the rows are the new ones. The local object is filled with the

// rows as they were, so they come last.
fn put_taken(image: &mut [u8], count: usize, m: &[u8], here: &[u32], there: &[u32], rows: &[u8])
    requires { (length image.old ≡ image_length) × (good_image image.old ≡ true) × (count ≡ length (decode image.old).points) × Takable (decode image.old) m.now here.now there.now × (length rows.now ≡ 96)
        × (map counter there.now ≡ (decode_point form_1 m.now).object.context)
        × (decode_clock rows.now ≡ with_arrivals (decode image.old) (decode image.old).clock (points_in m.now))
        × (verdict_of (result_judged (decode image.old) (decode_clock rows.now) (result_of (decode image.old) m.now there.now) true) ≡ Ok tt) }
    ensures { image.new ≡ encode (settled (decode image.old) (decode image.old).clock (result_of (decode image.old) m.now there.now ∷ [])) }
{
    noting::list_new(image, count, m);
    joining::put_merged(image, count, m, here, there, rows);
    joining::set_rows(image, rows);
}

// ---- the step, on a good image

// 12 and 13, and then the point, with both contexts beside it.
fn take_in_with(
    image: &mut [u8],
    count: usize,
    m: &[u8],
    here: &[u32],
    there: &[u32],
    rows: &[u8],
) -> Result<(), Refusal>
    requires { (length image.old ≡ image_length) × (good_image image.old ≡ true) × (count ≡ length (decode image.old).points) × (length m.now ≡ 512) × (verdict_of (message_judged m.now (decode image.old) true) ≡ Ok tt)
        × (length rows.now ≡ 96) × (decode_clock rows.now ≡ with_arrivals (decode image.old) (decode image.old).clock (points_in m.now)) × (every_row fits (decode_clock rows.now) ≡ true)
        × (length here.now ≡ 8) × (map counter here.now ≡ (local (decode image.old) (key_in m.now)).context) × (length there.now ≡ 8) × (map counter there.now ≡ (decode_point form_1 m.now).object.context) }
    ensures { (result ≡ (afterwards image.old [] (left_by (settle (decode image.old) (decode image.old).clock (taken (decode image.old) m.now ∷ [])))).verdict)
        × (image.new ≡ (afterwards image.old [] (left_by (settle (decode image.old) (decode image.old).clock (taken (decode image.old) m.now ∷ [])))).image) }
{
    judge_point(image, count, m, here, there, rows)?;
    put_taken(image, count, m, here, there, rows);
    Ok(())
}

// The contexts, and then the rest. The rows have taken what arrives.
fn take_in_entered(image: &mut [u8], count: usize, m: &[u8], rows: &[u8]) -> Result<(), Refusal>
    requires { (length image.old ≡ image_length) × (good_image image.old ≡ true) × (count ≡ length (decode image.old).points) × (length m.now ≡ 512) × (verdict_of (message_judged m.now (decode image.old) true) ≡ Ok tt)
        × (length rows.now ≡ 96) × (decode_clock rows.now ≡ with_arrivals (decode image.old) (decode image.old).clock (points_in m.now)) × (every_row fits (decode_clock rows.now) ≡ true) }
    ensures { (result ≡ (afterwards image.old [] (left_by (settle (decode image.old) (decode image.old).clock (taken (decode image.old) m.now ∷ [])))).verdict)
        × (image.new ≡ (afterwards image.old [] (left_by (settle (decode image.old) (decode image.old).clock (taken (decode image.old) m.now ∷ [])))).image) }
{
    let mut here: [u32; 8] = [0; 8];
    weighing::local_context(image, count, record::key_of(m), &mut here);
    let mut there: [u32; 8] = [0; 8];
    weighing::given_context(&m[8..40], &mut there);
    take_in_with(image, count, m, &here, &there, rows)
}

// 11, and then the rest.
fn take_in_checked(image: &mut [u8], m: &[u8]) -> Result<(), Refusal>
    requires { (length image.old ≡ image_length) × (good_image image.old ≡ true) × (length m.now ≡ 512) × (verdict_of (message_judged m.now (decode image.old) true) ≡ Ok tt) }
    ensures { (result ≡ (afterwards image.old [] (left_by (settle (decode image.old) (decode image.old).clock (taken (decode image.old) m.now ∷ [])))).verdict)
        × (image.new ≡ (afterwards image.old [] (left_by (settle (decode image.old) (decode image.old).clock (taken (decode image.old) m.now ∷ [])))).image) }
{
    let count = image::stored_count(image);
    let mut rows: [u8; 96] = [0; 96];
    block::copy_in(&mut rows, 0, &image[16..112]);
    if !arriving::enter_rows(image, count, m, &mut rows) {
        return Err(Refusal::RowTooFar);
    }
    take_in_entered(image, count, m, &rows)
}

// "Take in: fill the local object, merge with the message's": rows 3 to 10, and then the rest.
pub fn take_in_at(image: &mut [u8], message: &[u8]) -> Result<(), Refusal>
    requires { (length image.old ≡ image_length) × (good_image image.old ≡ true) × (length message.now ≡ 512) }
    ensures { (result ≡ (afterwards image.old [] (heard image.old message.now)).verdict) × (image.new ≡ (afterwards image.old [] (heard image.old message.now)).image) }
{
    checking::judge_message(image, message)?;
    take_in_checked(image, message)
}
